//! Rules 1 to 3 at one slot.
ghost use Rattle.std.specs.Prelude.{◌<◌, ◌≤◌, ◌+◌, ◌↔◌, ℕ, IsTrue};
ghost use Rattle.cell_types.specs.Layout.{reserve_at};
ghost use Rattle.cell_types.specs.declared.record_cell.RecordCell.TheVariants.{Reserve};
ghost use Rattle.volume_meaning.specs.Slots.{cells_for};
ghost use Rattle.volume_meaning.specs.Volumes.{Holds};
ghost use Rattle.tamper_rules.specs.Rules.{ReserveRule, OutcomeRule, DoneRule};
ghost use Rattle.log_audit.specs.Kept.{image_of_kept};

use crate::ended::{ended_slot, fits_into, has_its_stamp, is_done_cell};
use crate::kept::KeptCells;
use crate::looks::{record_at, reservation};
use cell_types::{Geometry, RecordCell};

/// Whether rule 1 is kept at the reserve cell of a slot.
pub(crate) fn keeps_reserve_rule(kept: &KeptCells, geometry: &Geometry, slot: u32) -> bool
    requires { slot < geometry.now.slots }
    ensures { IsTrue result ↔ ReserveRule geometry.now (image_of_kept kept.now) slot }
{
    let Some(reserved) = reservation(kept, geometry, slot) else {
        return false;
    };
    if slot == 0 {
        return reserved.start == geometry.pool_at();
    }
    let Some(before) = ended_slot(kept, geometry, slot - 1) else {
        return false;
    };
    reserved.start == before.end()
}

/// Whether rule 2 is kept at the outcome cell of a slot.
pub(crate) fn keeps_outcome_rule(kept: &KeptCells, geometry: &Geometry, slot: u32) -> bool
    requires { slot < geometry.now.slots }
    ensures { IsTrue result ↔ OutcomeRule geometry.now (image_of_kept kept.now) slot }
{
    if kept.at(geometry.reserve_at(slot)).is_none() {
        return false;
    }
    let Some(outcome) = record_at(kept, geometry.outcome_at(slot)) else {
        return false;
    };
    match outcome {
        RecordCell::Abandon => true,
        RecordCell::Commit { bytes, journal } => {
            if !fits_reserved(kept, geometry, slot, bytes, journal) {
                return false;
            }
            has_its_stamp(kept, geometry, slot)
        }
        _ => false,
    }
}

/// Whether a document of so many stored bytes and a journal of so many cells fit into the cells that the slot's reserve
/// cell states, where this is one.
fn fits_reserved(kept: &KeptCells, geometry: &Geometry, slot: u32, bytes: u32, journal: u32) -> bool
    requires { slot < geometry.now.slots }
    ensures { IsTrue result ↔ ((start reserved : ℕ)
        → Holds (image_of_kept kept.now) (reserve_at slot) (Reserve start reserved) → cells_for bytes + journal ≤ reserved) }
{
    let Some(held) = record_at(kept, geometry.reserve_at(slot)) else {
        return true;
    };
    let RecordCell::Reserve {
        start: _start,
        length,
    } = held
    else {
        return true;
    };
    fits_into(length, bytes, journal)
}

/// Whether rule 3 is kept at the done cell of a slot.
pub(crate) fn keeps_done_rule(kept: &KeptCells, geometry: &Geometry, slot: u32) -> bool
    requires { slot < geometry.now.slots }
    ensures { IsTrue result ↔ DoneRule (image_of_kept kept.now) slot }
{
    if !is_done_cell(kept, geometry, slot) {
        return false;
    }
    let Some(outcome) = record_at(kept, geometry.outcome_at(slot)) else {
        return false;
    };
    match outcome {
        RecordCell::Commit {
            bytes: _bytes,
            journal: _journal,
        } => true,
        _ => false,
    }
}
