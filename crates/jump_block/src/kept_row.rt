//! A row of a block's cells that is kept once it was read.
ghost use Rattle.std.specs.Prelude.{◌≤◌, ◌+◌, ◌^◌, IsTrue};
ghost use Rattle.volume_meaning.specs.declared.blocks.TheConstants.{BLOCK_CELLS, ENTRY_PLACES};
ghost use Rattle.jump_block.specs.Known.{IsBelow, IsKnown};
ghost use Rattle.jump_block.specs.KeptRows.{IsNextOf, IsRowKept, PassesRow, ReadsNext};

use crate::{Entry, KnownFront};
use cell_types::{Cell, RecordCell, posting_at};
use volume_meaning::ENTRY_PLACES;
use worm_device::{Failed, View};

/// How many cells are read at once.
const ROW_CELLS: usize = 32;

/// In how many rows the entries of a block have room.
const ROWS: u8 = 4;

/// A row of neighbouring cells, as a search found them. What was written then stays, so it is not read again. A cell
/// that was blank may be written by now: nothing is concluded from it.
#[derive(Clone, Copy)]
pub struct KeptRow {
    /// The number of the first cell.
    at: u32,
    cells: [Option<Cell>; ROW_CELLS],
}

impl KeptRow {
    ghost use Rattle.std.specs.Prelude.{◌≤◌, ◌<◌, ◌+◌, ◌^◌, ◌↔◌, IsTrue, IfSome};
    ghost use Rattle.cell_types.specs.Image.{Image};
    ghost use Rattle.worm_device.specs.Calls.{HasCause};
    ghost use Rattle.worm_device.specs.Views.{Viewed};
    ghost use Rattle.jump_block.specs.KeptRows.{IsRowKept, ShowsEntry};

    /// No cell is kept.
    pub fn new() -> KeptRow
        ensures { (image : Image) → IsRowKept image result }
    {
        KeptRow {
            at: 0,
            cells: [None; ROW_CELLS],
        }
    }

    /// The entry at a place of a block, if its cell is kept and holds a posting.
    fn entry(&self, block: u32, place: u8) -> Option<Entry>
        requires { block + place < 2 ^ 32 }
        ensures { IfSome result (ShowsEntry self.now block place) }
    {
        let at = block + u32::from(place);
        if !self.has(at) {
            return None;
        }
        let found = self.cells[(at - self.at) as usize];
        let Some(cell) = found else {
            return None;
        };
        let Some(RecordCell::Posting { key, last, tag }) = posting_at(cell, at) else {
            return None;
        };
        Some(Entry {
            block,
            place,
            key,
            last,
            tag,
        })
    }

    /// Whether the cell of this number is one of the row.
    fn has(&self, at: u32) -> bool
        ensures { IsTrue result ↔ (self.now.at ≤ at) × (at < self.now.at + 32) }
    {
        self.at <= at && at - self.at < ROW_CELLS as u32
    }

    /// Reads the row that begins with the cell of this number, in place of the one that was kept.
    fn read<V: View>(&mut self, view: &mut V, at: u32) -> Result<(), Failed>
        requires inside { at + 32 ≤ (V.seen view.old).cells }
        ensures viewed { Viewed (V.seen view.old) (V.seen view.new) }
        ensures reads { (V.seen view.new).base.reads ≤ (V.seen view.old).base.reads + 32 }
        ensures kept { IsTrue (V.seen view.old).base.tells → IsRowKept (V.seen view.new).image self.new }
        ensures cause { HasCause (V.seen view.old).base (V.seen view.new).base result }
    {
        self.at = at;
        match view.read_row(at, &mut self.cells) {
            Ok(()) => Ok(()),
            Err(failed) => {
                // What such a read leaves in the room is nothing to go by.
                *self = KeptRow::new();
                Err(failed)
            }
        }
    }
}

/// The first entry of a block with a key at or past x, if rows of its cells show it. Some places of the front may be
/// known, and hold smaller keys; what the rows show besides is known from then on. `None` says nothing.
pub fn next_in_rows<V: View>(
    view: &mut V,
    front: &mut KnownFront,
    row: &mut KeptRow,
    x: u32,
) -> Result<Option<Entry>, Failed>
    requires inside { front.old.block + BLOCK_CELLS ≤ (V.seen view.old).cells }
    requires places { front.old.count ≤ ENTRY_PLACES }
    requires known { IsTrue (V.seen view.old).base.tells → IsKnown (V.seen view.old).image front.old }
    requires below { IsBelow front.old x }
    requires kept { IsTrue (V.seen view.old).base.tells → IsRowKept (V.seen view.old).image row.old }
    ensures { ReadsNext x (V.seen view.old) (V.seen view.new) front.old front.new row.new result }
{
    // That its cells are fewer than 2 to the 32 is known to those who ask.
    let _cells = view.cells();
    for _turn in 0..ROWS {
        if let Some(next) = pass_row(front, row, x) {
            return Ok(Some(next));
        }
        let at = front.block + u32::from(front.count);
        if front.count >= ENTRY_PLACES || row.has(at) {
            return Ok(None);
        }
        row.read(view, at)?;
    }
    Ok(pass_row(front, row, x))
}

/// The same by one row alone, without a read.
fn pass_row(front: &mut KnownFront, row: &KeptRow, x: u32) -> Option<Entry>
    requires inside { front.old.block + BLOCK_CELLS ≤ 2 ^ 32 }
    requires places { front.old.count ≤ ENTRY_PLACES }
    requires below { IsBelow front.old x }
    ensures passes { PassesRow x row.now front.old front.new }
    ensures next { IsNextOf x row.now front.new result }
{
    while front.count < ENTRY_PLACES {
        let Some(next) = row.entry(front.block, front.count) else {
            return None;
        };
        if front.count > 0 && next.key <= front.greatest {
            return None;
        }
        if next.key >= x {
            return Some(next);
        }
        front.count += 1;
        front.greatest = next.key;
    }
    None
}
