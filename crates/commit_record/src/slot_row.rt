//! The state of a slot by its cells, which are neighbours and are read as one row, and its stamp.
ghost use Rattle.std.specs.Prelude.{◌≡◌, ◌<◌, ◌≤◌, ◌+◌, IfOk, length};
ghost use Rattle.cell_types.specs.Layout.{TakesStamps};
ghost use Rattle.worm_device.specs.Looks.{IsOfCell};
ghost use Rattle.worm_device.specs.Views.{Viewed};
ghost use Rattle.commit_record.specs.Partition.{HasRoom};
ghost use Rattle.commit_record.specs.SlotCells.{IsSpareOfRow, RowEnds, SlotOfRow, StampOfRow, found_cell};
ghost use Rattle.commit_record.specs.States.{StateEnds};

use crate::done_row::{done_of_row, held_stamp};
use crate::slot::SlotState;
use crate::slot_cells::{found_there, state_of_cells};
use crate::stamp_cell::stamp_found;
use cell_types::{Cell, Evidence, Fault, Geometry};
use worm_device::{Found, View};

/// The state of a slot on a volume whose documents are not stamped. It reads three cells.
pub(crate) fn plain_state<V: View>(
    view: &mut V,
    geometry: &Geometry,
    slot: u32,
) -> Result<SlotState, Fault>
    requires slot { slot < geometry.now.slots }
    requires size { geometry.now.cells ≤ (V.seen view.old).cells }
    requires plain { TakesStamps geometry.now → ⊥ }
    ensures viewed { Viewed (V.seen view.old) (V.seen view.new) }
    ensures reads { (V.seen view.new).base.reads ≤ (V.seen view.old).base.reads + 3 }
    ensures room { IfOk result (λ state. HasRoom state) }
    ensures ends { StateEnds geometry.now slot (V.seen view.old) (V.seen view.new) result }
{
    // The last of them is a cell of the device, too.
    let _done = geometry.done_at(slot);
    let mut row = [None; 3];
    view.read_row(geometry.reserve_at(slot), &mut row)?;
    Ok(state_of_row(geometry, slot, &row)?)
}

/// The same where documents are stamped. It reads four cells.
pub(crate) fn stamped_state<V: View>(
    view: &mut V,
    geometry: &Geometry,
    slot: u32,
) -> Result<SlotState, Fault>
    requires slot { slot < geometry.now.slots }
    requires size { geometry.now.cells ≤ (V.seen view.old).cells }
    requires stamped { TakesStamps geometry.now }
    ensures viewed { Viewed (V.seen view.old) (V.seen view.new) }
    ensures reads { (V.seen view.new).base.reads ≤ (V.seen view.old).base.reads + 4 }
    ensures room { IfOk result (λ state. HasRoom state) }
    ensures ends { StateEnds geometry.now slot (V.seen view.old) (V.seen view.new) result }
{
    // The last of them is a cell of the device, too.
    let _spare = geometry.spare_at(slot);
    let mut row = [None; 4];
    view.read_row(geometry.reserve_at(slot), &mut row)?;
    Ok(state_of_row(geometry, slot, &row)?)
}

/// The state of a slot by its four cells, the first of a row that was read before, or the first of them that is out of
/// place. Reads nothing.
pub fn slot_of_row(
    geometry: &Geometry,
    slot: u32,
    row: &[Option<Cell>],
) -> Result<SlotState, Evidence>
    requires slot { slot < geometry.now.slots }
    requires four { 4 ≤ length row.now }
    ensures { SlotOfRow geometry.now slot row.now result }
{
    state_of_row(geometry, slot, row)
}

/// The stamp in the last of a slot's four cells, the first of a row that was read before, in seconds, and `None` where it
/// holds none. Reads nothing.
pub fn stamp_of_row(geometry: &Geometry, slot: u32, row: &[Option<Cell>]) -> Option<u32>
    requires slot { slot < geometry.now.slots }
    requires four { 4 ≤ length row.now }
    ensures { StampOfRow slot row.now result }
{
    let spare = row[3];
    let at = geometry.spare_at(slot);
    if let Some(seconds) = held_stamp(spare, at) {
        return Some(seconds);
    }
    stamp_found_in_row(geometry, slot, row)
}

/// The same, of a cell that holds anything.
#[cold]
fn stamp_found_in_row(geometry: &Geometry, slot: u32, row: &[Option<Cell>]) -> Option<u32>
    requires slot { slot < geometry.now.slots }
    requires four { 4 ≤ length row.now }
    ensures { StampOfRow slot row.now result }
{
    let spare = row[3];
    stamp_found(found_in(spare, geometry.spare_at(slot)))
}

/// The state that a row makes of a slot, whose cells are its first, or the first of them that is out of place. Most slots
/// are done, so that is asked first, and each cell then by the kind that it has to be.
fn state_of_row(geometry: &Geometry, slot: u32, row: &[Option<Cell>]) -> Result<SlotState, Evidence>
    requires slot { slot < geometry.now.slots }
    requires three { 3 ≤ length row.now }
    requires four { TakesStamps geometry.now → 4 ≤ length row.now }
    ensures { SlotOfRow geometry.now slot row.now result }
{
    if let Some(state) = done_of_row(geometry, slot, row) {
        return Ok(state);
    }
    let stamp = spare_of_row(geometry, slot, row);
    found_in_row(geometry, slot, row, stamp)
}

/// What stands in the spare cell of a slot, if documents are stamped.
#[cold]
fn spare_of_row(geometry: &Geometry, slot: u32, row: &[Option<Cell>]) -> Option<Found>
    requires slot { slot < geometry.now.slots }
    requires four { TakesStamps geometry.now → 4 ≤ length row.now }
    ensures { IsSpareOfRow geometry.now slot row.now result }
{
    if !geometry.is_stamped() {
        return None;
    }
    let spare = row[3];
    Some(found_in(spare, geometry.spare_at(slot)))
}

/// The state that a row makes of a slot's reserve, outcome and done cell, or the first of them that is out of place.
#[cold]
fn found_in_row(
    geometry: &Geometry,
    slot: u32,
    row: &[Option<Cell>],
    stamp: Option<Found>,
) -> Result<SlotState, Evidence>
    requires slot { slot < geometry.now.slots }
    requires three { 3 ≤ length row.now }
    ensures { RowEnds geometry.now slot row.now stamp result }
{
    let first = row[0];
    let second = row[1];
    let third = row[2];
    let reserve = found_in(first, geometry.reserve_at(slot));
    let outcome = found_in(second, geometry.outcome_at(slot));
    let done = found_in(third, geometry.done_at(slot));
    state_of_cells(geometry, slot, reserve, outcome, done, stamp)
}

/// What stands in a cell of this number, of which the row holds this.
fn found_in(held: Option<Cell>, at: u32) -> Found
    ensures of { IsOfCell at result }
    ensures cell { found_cell result ≡ held }
{
    let Some(cell) = held else {
        return Found::Blank;
    };
    found_there(cell, at)
}
