//! The state of a slot, by what was found in its cells.
ghost use Rattle.std.specs.Prelude.{◌≡◌, ◌<◌, ◌≤◌, ◌+◌, ◌↔◌, IfErr, IfNone, IfOk, IfSome, IsSome, None, OnOk, Some, IsTrue, false, ℕ};
ghost use Rattle.cell_types.specs.Layout.{done_at, outcome_at, pool_at, reserve_at};
ghost use Rattle.cell_types.specs.declared.geometry.TheConstants.{MAX_CELLS};
ghost use Rattle.cell_types.specs.declared.record_cell.RecordCell.TheVariants.{Reserve, Stamp};
ghost use Rattle.volume_meaning.specs.Slots.{cells_for};
ghost use Rattle.tamper_rules.specs.declared.numbers.TheConstants.{DONE_CELL};
ghost use Rattle.worm_device.specs.Looks.{IsOfCell};
ghost use Rattle.commit_record.specs.Reservations.{reservation_of};
ghost use Rattle.commit_record.specs.SlotCells.{CellsEnd, HoldsStamp, IsStampMissing, IsStampThere, SeenCells, SeenCommitted, SeenReserved, SeenUnreserved, found_cell};
ghost use Rattle.commit_record.specs.States.{AreOfPool, FitsInto};

use crate::slot::SlotState;
use crate::slot_parts::document_cells;
use cell_types::{Cell, Evidence, Geometry, RecordCell, decode};
use tamper_rules::{DONE_CELL, OUTCOME_CELL, RESERVE_CELL};
use worm_device::Found;

/// The state that a slot's cells make, or the first of them that is out of place. The stamp cell is at hand where the
/// volume's documents are stamped.
pub fn state_of_cells(
    geometry: &Geometry,
    slot: u32,
    reserve: Found,
    outcome: Found,
    done: Found,
    stamp: Option<Found>,
) -> Result<SlotState, Evidence>
    requires slot { slot < geometry.now.slots }
    requires reserve { IsOfCell (reserve_at slot) reserve }
    requires outcome { IsOfCell (outcome_at slot) outcome }
    ensures used { IsSome (found_cell reserve) → IfOk result (λ state. IsSome (reservation_of state)) }
    ensures ends { CellsEnd (SeenCells geometry.now slot reserve outcome done stamp) geometry.now slot result }
{
    let (found, held) = match reserve {
        Found::Blank => return state_unreserved(geometry, slot, outcome, done),
        Found::Stray(found) => {
            return Err(Evidence {
                rule: RESERVE_CELL,
                cell: geometry.reserve_at(slot),
                found,
            });
        }
        Found::Record(found, held) => (found, held),
    };
    let Some((start, length)) = reserved_cells(geometry, &held) else {
        return Err(Evidence {
            rule: RESERVE_CELL,
            cell: geometry.reserve_at(slot),
            found,
        });
    };
    state_reserved(geometry, slot, start, length, outcome, done, stamp)
}

/// The state where the reserve cell is blank.
fn state_unreserved(
    geometry: &Geometry,
    slot: u32,
    outcome: Found,
    done: Found,
) -> Result<SlotState, Evidence>
    requires { slot < geometry.now.slots }
    ensures { CellsEnd (SeenUnreserved slot outcome done) geometry.now slot result }
{
    if let Some(found) = written_cell(&outcome) {
        return Err(Evidence {
            rule: OUTCOME_CELL,
            cell: geometry.outcome_at(slot),
            found,
        });
    }
    no_done_cell(geometry, slot, &done)?;
    Ok(SlotState::Unused)
}

/// The state where the reserve cell reserves these cells.
fn state_reserved(
    geometry: &Geometry,
    slot: u32,
    start: u32,
    length: u32,
    outcome: Found,
    done: Found,
    stamp: Option<Found>,
) -> Result<SlotState, Evidence>
    requires slot { slot < geometry.now.slots }
    requires pool { AreOfPool geometry.now start length }
    requires outcome { IsOfCell (outcome_at slot) outcome }
    ensures used { IfOk result (λ state. IsSome (reservation_of state)) }
    ensures ends { CellsEnd (SeenReserved geometry.now slot start length outcome done stamp) geometry.now slot result }
{
    let (found, held) = match outcome {
        Found::Blank => {
            no_done_cell(geometry, slot, &done)?;
            return Ok(SlotState::Reserved { start, length });
        }
        Found::Stray(found) => {
            return Err(Evidence {
                rule: OUTCOME_CELL,
                cell: geometry.outcome_at(slot),
                found,
            });
        }
        Found::Record(found, held) => (found, held),
    };
    match held {
        RecordCell::Abandon => {
            no_done_cell(geometry, slot, &done)?;
            Ok(SlotState::Abandoned { start, length })
        }
        RecordCell::Commit { bytes, journal } if fits_into(length, bytes, journal) => {
            if lacks_stamp(stamp) {
                return Err(Evidence {
                    rule: OUTCOME_CELL,
                    cell: geometry.outcome_at(slot),
                    found,
                });
            }
            state_committed(geometry, slot, start, length, bytes, journal, done)
        }
        _ => Err(Evidence {
            rule: OUTCOME_CELL,
            cell: geometry.outcome_at(slot),
            found,
        }),
    }
}

/// The state where the outcome cell states a document that fits.
fn state_committed(
    geometry: &Geometry,
    slot: u32,
    start: u32,
    length: u32,
    bytes: u32,
    journal: u32,
    done: Found,
) -> Result<SlotState, Evidence>
    requires slot { slot < geometry.now.slots }
    requires pool { AreOfPool geometry.now start length }
    requires fits { FitsInto length bytes journal }
    ensures used { IfOk result (λ state. IsSome (reservation_of state)) }
    ensures ends { CellsEnd (SeenCommitted geometry.now slot start length bytes journal done) geometry.now slot result }
{
    match done {
        Found::Blank => Ok(SlotState::Committed {
            start,
            length,
            bytes,
            journal,
        }),
        Found::Stray(found) => Err(Evidence {
            rule: DONE_CELL,
            cell: geometry.done_at(slot),
            found,
        }),
        Found::Record(found, held) => match held {
            RecordCell::Done { slot: named } if named == slot => Ok(SlotState::Done {
                start,
                length,
                bytes,
                journal,
            }),
            _ => Err(Evidence {
                rule: DONE_CELL,
                cell: geometry.done_at(slot),
                found,
            }),
        },
    }
}

/// Ok where the done cell is blank: the slot has nothing that could be done.
fn no_done_cell(geometry: &Geometry, slot: u32, done: &Found) -> Result<(), Evidence>
    requires { slot < geometry.now.slots }
    ensures blank { OnOk result (found_cell done.now ≡ None) }
    ensures written { IfErr result (λ e.
        (e.rule ≡ DONE_CELL) × (e.cell ≡ done_at slot) × (found_cell done.now ≡ Some e.found)) }
{
    match written_cell(done) {
        None => Ok(()),
        Some(found) => Err(Evidence {
            rule: DONE_CELL,
            cell: geometry.done_at(slot),
            found,
        }),
    }
}

/// What stands in a cell of this number that is written.
pub fn found_there(cell: Cell, at: u32) -> Found
    ensures of { IsOfCell at result }
    ensures cell { found_cell result ≡ Some cell }
{
    match decode(cell, at) {
        Some(held) => Found::Record(cell, held),
        None => Found::Stray(cell),
    }
}

/// What stands in the cell, where it is written.
fn written_cell(found: &Found) -> Option<Cell>
    ensures { result ≡ found_cell found.now }
{
    match *found {
        Found::Blank => None,
        Found::Record(cell, _) | Found::Stray(cell) => Some(cell),
    }
}

/// The start and the number of the cells that a record reserves, where they lie in the pool.
fn reserved_cells(geometry: &Geometry, held: &RecordCell) -> Option<(u32, u32)>
    ensures some { IfSome result (λ r. (held.now ≡ Reserve r.0 r.1)
        × (pool_at geometry.now ≤ r.0) × (r.0 + r.1 ≤ geometry.now.cells) × (r.0 + r.1 ≤ MAX_CELLS)) }
    ensures none { IfNone result ((start length : ℕ) → held.now ≡ Reserve start length →
        pool_at geometry.now ≤ start → start + length ≤ geometry.now.cells → ⊥) }
{
    let RecordCell::Reserve { start, length } = *held else {
        return None;
    };
    if !lies_in_pool(geometry, start, length) {
        return None;
    }
    Some((start, length))
}

/// Whether so many cells from this one on are cells of the pool.
pub(crate) fn lies_in_pool(geometry: &Geometry, start: u32, length: u32) -> bool
    ensures pool { IsTrue result ↔ (pool_at geometry.now ≤ start) × (start + length ≤ geometry.now.cells) }
    ensures device { IsTrue result → start + length ≤ MAX_CELLS }
{
    let cells = geometry.cells();
    geometry.pool_at() <= start && start <= cells && length <= cells - start
}

/// Whether the slot's stamp cell was looked at and holds no stamp.
fn lacks_stamp(stamp: Option<Found>) -> bool
    ensures missing { IsTrue result → IsStampMissing stamp }
    ensures there { result ≡ false → IsStampThere stamp }
{
    let Some(found) = stamp else {
        return false;
    };
    match found {
        Found::Blank => true,
        Found::Stray(_cell) => true,
        Found::Record(_cell, held) => !is_stamp(&held),
    }
}

/// Whether a record is a stamp.
fn is_stamp(held: &RecordCell) -> bool
    ensures stamp { IsTrue result → HoldsStamp held.now }
    ensures other { result ≡ false → (seconds : ℕ) → held.now ≡ Stamp seconds → ⊥ }
{
    matches!(held, RecordCell::Stamp { .. })
}

/// Whether a document of so many stored bytes and a journal of so many cells fit into so many cells.
pub(crate) fn fits_into(length: u32, bytes: u32, journal: u32) -> bool
    ensures { IsTrue result ↔ cells_for bytes + journal ≤ length }
{
    let document = document_cells(bytes);
    document <= length && journal <= length - document
}
