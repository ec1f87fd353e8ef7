//! Slots that have ended.
ghost use Rattle.std.specs.Prelude.{◌≡◌, ◌<◌, ◌+◌, ◌≤◌, ◌↔◌, IsTrue, IfSome, IfNone};
ghost use Rattle.cell_types.specs.Layout.{TakesStamps, done_at};
ghost use Rattle.cell_types.specs.declared.record_cell.RecordCell.TheVariants.{Done};
ghost use Rattle.volume_meaning.specs.Slots.{HasEnded, IsStamped, cells_for};
ghost use Rattle.volume_meaning.specs.Volumes.{Holds};
ghost use Rattle.log_audit.specs.Kept.{image_of_kept};
ghost use Rattle.log_audit.specs.Logs.{IsEnded, FitsOnDevice, start_of, end_of};

use crate::kept::KeptCells;
use crate::looks::{record_at, reservation};
use cell_types::{Geometry, RecordCell};
use commit_record::document_cells;

/// What has come of a slot that has ended. `start` is the first cell that it reserves and `length` how many they are;
/// `bytes` is how many stored bytes its document has, and `journal` how many cells its journal has.
#[derive(Clone, Copy)]
pub enum EndedSlot {
    /// It was given up.
    Abandoned {
        start: u32,
        length: u32,
    },
    /// Its document is stored and its journal carried out.
    Done {
        start: u32,
        length: u32,
        bytes: u32,
        journal: u32,
    },
}

impl EndedSlot {
    /// The first cell that it reserves.
    pub fn start(&self) -> u32
        ensures { result ≡ start_of self.now }
    {
        match *self {
            EndedSlot::Abandoned { start, .. } => start,
            EndedSlot::Done { start, .. } => start,
        }
    }

    /// The cell behind those that it reserves.
    pub fn end(&self) -> u32
        requires { FitsOnDevice self.now }
        ensures { result ≡ end_of self.now }
    {
        match *self {
            EndedSlot::Abandoned { start, length } => start + length,
            EndedSlot::Done { start, length, .. } => start + length,
        }
    }
}

/// What has come of a slot, if it has ended.
pub fn ended_slot(kept: &KeptCells, geometry: &Geometry, slot: u32) -> Option<EndedSlot>
    requires { slot < geometry.now.slots }
    ensures some { IfSome result (λ e. IsEnded geometry.now (image_of_kept kept.now) slot e) }
    ensures room { IfSome result (λ e. FitsOnDevice e) }
    ensures none { IfNone result (HasEnded geometry.now (image_of_kept kept.now) (image_of_kept kept.now) slot → ⊥) }
{
    let Some(reserved) = reservation(kept, geometry, slot) else {
        return None;
    };
    let Some(outcome) = record_at(kept, geometry.outcome_at(slot)) else {
        return None;
    };
    match outcome {
        RecordCell::Abandon => {
            if kept.at(geometry.done_at(slot)).is_some() {
                return None;
            }
            Some(EndedSlot::Abandoned {
                start: reserved.start,
                length: reserved.length,
            })
        }
        RecordCell::Commit { bytes, journal } => {
            if !fits_into(reserved.length, bytes, journal) {
                return None;
            }
            if !has_its_stamp(kept, geometry, slot) {
                return None;
            }
            if !is_done_cell(kept, geometry, slot) {
                return None;
            }
            Some(EndedSlot::Done {
                start: reserved.start,
                length: reserved.length,
                bytes,
                journal,
            })
        }
        _ => None,
    }
}

/// Whether the slot's done cell names it.
pub(crate) fn is_done_cell(kept: &KeptCells, geometry: &Geometry, slot: u32) -> bool
    requires { slot < geometry.now.slots }
    ensures { IsTrue result ↔ Holds (image_of_kept kept.now) (done_at slot) (Done slot) }
{
    let Some(held) = record_at(kept, geometry.done_at(slot)) else {
        return false;
    };
    match held {
        RecordCell::Done { slot: named } => named == slot,
        _ => false,
    }
}

/// Whether the slot has a stamp, where the volume's documents are stamped.
pub(crate) fn has_its_stamp(kept: &KeptCells, geometry: &Geometry, slot: u32) -> bool
    requires { slot < geometry.now.slots }
    ensures { IsTrue result ↔ (TakesStamps geometry.now → IsStamped (image_of_kept kept.now) slot) }
{
    if !geometry.is_stamped() {
        return true;
    }
    let Some(held) = record_at(kept, geometry.spare_at(slot)) else {
        return false;
    };
    match held {
        RecordCell::Stamp { seconds: _seconds } => true,
        _ => false,
    }
}

/// Whether a document of so many stored bytes and a journal of so many cells fit into so many cells.
pub(crate) fn fits_into(length: u32, bytes: u32, journal: u32) -> bool
    ensures { IsTrue result ↔ cells_for bytes + journal ≤ length }
{
    let document = document_cells(bytes);
    document <= length && journal <= length - document
}
