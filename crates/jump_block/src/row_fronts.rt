//! The front of a block, as far as rows of its cells make it known.
ghost use Rattle.std.specs.Prelude.{◌≡◌, ◌≤◌, ◌+◌, ◌%◌, ◌^◌, length, IfSome};
ghost use Rattle.volume_meaning.specs.declared.blocks.TheConstants.{BLOCK_CELLS, ENTRY_PLACES};
ghost use Rattle.jump_block.specs.RowFronts.{IsKeyAt, KnowsRow, ReadsRows};

use crate::KnownFront;
use cell_types::{Cell, RecordCell, posting_at};
use worm_device::{Failed, View};

/// How many cells are read at once.
const ROW_CELLS: u8 = 32;

/// Makes known what stands at the places of a block, as far as they are of the front and hold keys below x. It reads them
/// row by row, each place once. It may stop before the first other place.
pub(crate) fn read_rows<V: View>(view: &mut V, front: &mut KnownFront, x: u32) -> Result<(), Failed>
    requires inside { front.old.block + BLOCK_CELLS ≤ (V.seen view.old).cells }
    requires none { front.old.count ≡ 0 }
    ensures { ReadsRows x (V.seen view.old) (V.seen view.new) front.old front.new result }
{
    // That its cells are fewer than 2 to the 32 is known to those who ask.
    let _cells = view.cells();
    for turn in 0u8..4 {
        let first = ROW_CELLS * turn;
        let mut row = [None; ROW_CELLS as usize];
        view.read_row(front.block + u32::from(first), &mut row)?;
        know_row(front, &row, x);
        if front.count < first + ROW_CELLS {
            return Ok(());
        }
    }
    Ok(())
}

/// Makes known what a row of cells holds that were read at the places behind the known ones, up to the first that is not of
/// the front, or whose key is not below x.
fn know_row(front: &mut KnownFront, row: &[Option<Cell>], x: u32)
    requires few { front.old.count + length row.now ≤ ENTRY_PLACES }
    requires inside { front.old.block + BLOCK_CELLS ≤ 2 ^ 32 }
    ensures { KnowsRow x row.now front.old front.new }
{
    for k in 0..row.len() {
        let found = row[k];
        let Some(cell) = found else {
            return;
        };
        let Some(key) = key_at(cell, front.block + u32::from(front.count)) else {
            return;
        };
        if key >= x {
            return;
        }
        if front.count > 0 && key <= front.greatest {
            return;
        }
        front.count += 1;
        front.greatest = key;
    }
}

/// The key of a cell of this number, if it is a posting there.
fn key_at(cell: Cell, at: u32) -> Option<u32>
    ensures { IfSome result (IsKeyAt cell at) }
{
    let Some(RecordCell::Posting { key, .. }) = posting_at(cell, at) else {
        return None;
    };
    Some(key)
}
