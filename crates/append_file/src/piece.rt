//! One cell of a document part.
ghost use Rattle.std.specs.Prelude.{◌≡◌, ◌<◌, ◌≤◌, ◌+◌, ◌*◌, IfSome, IfNone, Some};
ghost use Rattle.append_file.specs.Pieces.{HoldsPiece, IsNoPiece, ReadPieceEnds};
ghost use Rattle.append_file.specs.declared.piece.ContentFault.TheVariants as content_faults;
ghost use Rattle.worm_device.specs.Views.{Viewed};

use crate::CONTENT_BYTES;
use cell_types::{Cell, Content, content_of};
use worm_device::{Failed, View};

/// Why bytes of a document are not read.
#[derive(Clone, Copy, Debug, PartialEq, Eq)]
pub enum ContentFault {
    /// The cell is blank, no content cell, or holds another number of bytes than its place asks for.
    Broken,
    /// A read failed.
    ReadFault,
}

impl From<Failed> for ContentFault {
    ghost from_gives = { λ _ fault. fault ≡ content_faults.ReadFault };

    fn from(_: Failed) -> ContentFault {
        ContentFault::ReadFault
    }
}

/// What a cell that was found at this place holds, if it is whole: 15 bytes of a part of so many, and those that are
/// left in the last cell.
pub(crate) fn piece_in(cell: Cell, bytes: u32, place: u32) -> Option<Content>
    requires place { 15 * place < bytes }
    ensures some { IfSome result (HoldsPiece bytes place (Some cell)) }
    ensures none { IfNone result (IsNoPiece bytes place (Some cell)) }
{
    let held = content_of(cell)?;
    if u32::from(held.length) != CONTENT_BYTES.min(bytes - CONTENT_BYTES * place) {
        return None;
    }
    Some(held)
}

/// The bytes that the cell of this place holds, places from 0, in a part of so many bytes in the cells from start on:
/// 15 bytes, and those that are left in the last cell. It makes one read at most.
pub fn read_piece<V: View>(
    view: &mut V,
    start: u32,
    bytes: u32,
    place: u32,
) -> Result<Content, ContentFault>
    requires place { 15 * place < bytes }
    requires inside { start + place < (V.seen view.old).cells }
    ensures viewed { Viewed (V.seen view.old) (V.seen view.new) }
    ensures reads { (V.seen view.new).base.reads ≤ (V.seen view.old).base.reads + 1 }
    ensures ends { ReadPieceEnds start bytes place (V.seen view.old) (V.seen view.new) result }
{
    // That its cells are fewer than 2 to the 32 is known to those who ask.
    let _cells = view.cells();
    let Some(cell) = view.read(start + place)? else {
        return Err(ContentFault::Broken);
    };
    let Some(held) = piece_in(cell, bytes, place) else {
        return Err(ContentFault::Broken);
    };
    Ok(held)
}
