//! The stored bytes of a document: a length, the identifier, the body.
ghost use Rattle.std.specs.Prelude.{◌≡◌, ◌≤◌, ◌+◌, min, [], IfNone, IfOk, IfSome, length};
ghost use Rattle.volume_meaning.specs.Slots.{cells_for};
ghost use Rattle.worm_device.specs.Views.{Viewed};
ghost use Rattle.append_file.specs.Reading.{IsPosition, HasRead};
ghost use Rattle.document_store.specs.Heads.{DocumentEnds, HeadEnds, IsHead, IsHeadOfRow, IsNoFront, SkipEnds, id_of};
ghost use Rattle.document_store.specs.declared.head.TheConstants.{FRONT_BYTES};

use crate::identifier::is_identifier;
use crate::text::Text;
use append_file::{ContentFault, Position, read_byte};
use cell_types::{NoMemory, memory};
use std::alloc::Global;
use volume_meaning::{MAX_BODY_BYTES, MAX_IDENTIFIER_BYTES};
use worm_device::View;

/// How many bytes stand before a body, at most.
pub const FRONT_BYTES: usize = 201;

/// What stands before the body, and how many bytes the body has.
#[derive(Clone, Copy)]
pub struct Head {
    /// The identifier, and zeros behind it.
    pub id: [u8; MAX_IDENTIFIER_BYTES],
    /// How many bytes it has, 1 to 200.
    pub id_length: u8,
    pub body_length: u32,
}

/// The head of a document of so many stored bytes of which this row has the first ones, 201 at least or all of them. There
/// is none where no document begins so.
pub fn head_of_row(bytes: u32, row: &[u8]) -> Option<Head>
    requires some { 1 ≤ length row.now }
    requires enough { min FRONT_BYTES bytes ≤ length row.now }
    ensures some { IfSome result (IsHeadOfRow bytes row.now) }
    ensures none { IfNone result (IsNoFront bytes row.now) }
{
    let id_length = row[0];
    let before = 1 + u32::from(id_length);
    if usize::from(id_length) > MAX_IDENTIFIER_BYTES || before > bytes {
        return None;
    }
    let body_length = bytes - before;
    if body_length > MAX_BODY_BYTES as u32 {
        return None;
    }
    let written = &row[1..before as usize];
    if !is_identifier(written) {
        return None;
    }
    let mut id = [0; MAX_IDENTIFIER_BYTES];
    id[..usize::from(id_length)].copy_from_slice(written);
    Some(Head {
        id,
        id_length,
        body_length,
    })
}

/// Reads what stands before the body, in a part of so many stored bytes from `start` on.
pub fn read_head<V: View>(
    view: &mut V,
    start: u32,
    bytes: u32,
    position: &mut Position,
) -> Result<Head, ContentFault>
    requires begins { HasRead (V.seen view.old) start bytes position.old [] }
    requires is { IsPosition position.old }
    requires none { position.old.read ≡ 0 }
    requires inside { start + cells_for bytes ≤ (V.seen view.old).cells }
    ensures viewed { Viewed (V.seen view.old) (V.seen view.new) }
    ensures is { IsPosition position.new }
    ensures bytes { position.new.bytes ≡ bytes }
    ensures reads { (V.seen view.new).base.reads ≤ (V.seen view.old).base.reads + position.new.read }
    ensures ends { HeadEnds start bytes (V.seen view.old) (V.seen view.new) position.new result }
{
    let id_length = read_byte(view, position)?;
    let before = 1 + u32::from(id_length);
    if id_length == 0 || usize::from(id_length) > MAX_IDENTIFIER_BYTES || before > bytes {
        return Err(ContentFault::Broken);
    }
    let body_length = bytes - before;
    if body_length > MAX_BODY_BYTES as u32 {
        return Err(ContentFault::Broken);
    }
    let mut id = [0; MAX_IDENTIFIER_BYTES];
    for k in 0..usize::from(id_length) {
        let byte = read_byte(view, position)?;
        if !byte.is_ascii_graphic() {
            return Err(ContentFault::Broken);
        }
        id[k] = byte;
    }
    Ok(Head {
        id,
        id_length,
        body_length,
    })
}

/// Reads the body behind a head.
fn skip_body<V: View>(
    view: &mut V,
    start: u32,
    bytes: u32,
    position: &mut Position,
    head: &Head,
) -> Result<(), ContentFault>
    requires head { IsHead (V.seen view.old) start bytes position.old head.now }
    requires inside { start + cells_for bytes ≤ (V.seen view.old).cells }
    ensures viewed { Viewed (V.seen view.old) (V.seen view.new) }
    ensures is { IsPosition position.new }
    ensures bytes { position.new.bytes ≡ bytes }
    ensures reads { (V.seen view.new).base.reads + position.old.read
        ≤ (V.seen view.old).base.reads + position.new.read }
    ensures ends { SkipEnds start bytes head.now (V.seen view.old) (V.seen view.new) result }
{
    for _ in 0..head.body_length {
        read_byte(view, position)?;
    }
    Ok(())
}

/// Reads the whole document of a part of so many stored bytes from `start` on, each cell once.
pub fn read_document<V: View>(view: &mut V, start: u32, bytes: u32) -> Result<Head, ContentFault>
    requires { start + cells_for bytes ≤ (V.seen view.old).cells }
    ensures viewed { Viewed (V.seen view.old) (V.seen view.new) }
    ensures reads { (V.seen view.new).base.reads ≤ (V.seen view.old).base.reads + cells_for bytes }
    ensures ends { DocumentEnds start bytes (V.seen view.old) (V.seen view.new) result }
{
    let mut position = Position::new(start, bytes);
    let head = read_head(view, start, bytes, &mut position)?;
    skip_body(view, start, bytes, &mut position, &head)?;
    Ok(head)
}

/// The identifier of a document, by its head.
pub fn identifier_of_head(alloc: Global, head: &Head) -> Result<Text, NoMemory>
    requires { head.now.id_length ≤ length head.now.id }
    ensures { IfOk result (λ text. text ≡ id_of head.now) }
{
    let written = &head.id[..usize::from(head.id_length)];
    let bytes = memory::from_slice(alloc, written)?;
    Ok(Text::new(bytes))
}
