//! A slot that is done, by a row of its cells: each is asked for by the kind that it has to have, and none is decoded
//! whole.
ghost use Rattle.std.specs.Prelude.{◌<◌, ◌≤◌, IfSome, IsTrue, Ok, length};
ghost use Rattle.cell_types.specs.Layout.{TakesStamps};
ghost use Rattle.cell_types.specs.declared.record_cell.RecordCell.TheVariants as records;
ghost use Rattle.commit_record.specs.SlotCells.{HoldsRecord, IsStampedByRow, SlotOfRow};

use crate::slot::SlotState;
use crate::slot_cells::{fits_into, lies_in_pool};
use cell_types::{Cell, Geometry, decode_commit, decode_done, decode_reserve, decode_stamp};

/// The state of a slot that is done, where its cells, the first of a row, say so. It is `None` where they make another
/// state, or none.
pub(crate) fn done_of_row(geometry: &Geometry, slot: u32, row: &[Option<Cell>]) -> Option<SlotState>
    requires slot { slot < geometry.now.slots }
    requires three { 3 ≤ length row.now }
    requires four { TakesStamps geometry.now → 4 ≤ length row.now }
    ensures { IfSome result (λ state. SlotOfRow geometry.now slot row.now (Ok state)) }
{
    let first = row[0];
    let second = row[1];
    let third = row[2];
    let (start, length) = held_reserve(first, geometry.reserve_at(slot))?;
    let (bytes, journal) = held_commit(second, geometry.outcome_at(slot))?;
    let named = held_done(third, geometry.done_at(slot))?;
    if named != slot {
        return None;
    }
    if !lies_in_pool(geometry, start, length) {
        return None;
    }
    if !fits_into(length, bytes, journal) {
        return None;
    }
    if !has_stamp_in_row(geometry, slot, row) {
        return None;
    }
    Some(SlotState::Done {
        start,
        length,
        bytes,
        journal,
    })
}

/// Whether the slot's spare cell holds a stamp, if documents are stamped.
#[inline]
fn has_stamp_in_row(geometry: &Geometry, slot: u32, row: &[Option<Cell>]) -> bool
    requires slot { slot < geometry.now.slots }
    requires four { TakesStamps geometry.now → 4 ≤ length row.now }
    ensures { IsTrue result → IsStampedByRow geometry.now slot row.now }
{
    if !geometry.is_stamped() {
        return true;
    }
    let spare = row[3];
    let Some(_seconds) = held_stamp(spare, geometry.spare_at(slot)) else {
        return false;
    };
    true
}

/// The cells that are reserved by a cell of this number, of which a row holds this.
fn held_reserve(held: Option<Cell>, at: u32) -> Option<(u32, u32)>
    ensures { IfSome result (λ found. HoldsRecord at held (records.Reserve found.0 found.1)) }
{
    let Some(cell) = held else {
        return None;
    };
    decode_reserve(cell, at)
}

/// The bytes and the journal that are stated by such a cell.
fn held_commit(held: Option<Cell>, at: u32) -> Option<(u32, u32)>
    ensures { IfSome result (λ found. HoldsRecord at held (records.Commit found.0 found.1)) }
{
    let Some(cell) = held else {
        return None;
    };
    decode_commit(cell, at)
}

/// The slot that is done by such a cell.
fn held_done(held: Option<Cell>, at: u32) -> Option<u32>
    ensures { IfSome result (λ slot. HoldsRecord at held (records.Done slot)) }
{
    let Some(cell) = held else {
        return None;
    };
    decode_done(cell, at)
}

/// The stamp in such a cell.
pub(crate) fn held_stamp(held: Option<Cell>, at: u32) -> Option<u32>
    ensures { IfSome result (λ seconds. HoldsRecord at held (records.Stamp seconds)) }
{
    let Some(cell) = held else {
        return None;
    };
    decode_stamp(cell, at)
}
