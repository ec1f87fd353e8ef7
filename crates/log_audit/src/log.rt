//! The slots that have ended, in memory.
ghost use Rattle.std.specs.Prelude.{◌≡◌, [], IfOk};
ghost use Rattle.log_audit.specs.Kept.{image_of_kept};
ghost use Rattle.log_audit.specs.Logs.{LogEnds};
ghost use Rattle.log_audit.specs.Findings.{AreMetBelow};

use crate::ended::{EndedSlot, ended_slot};
use crate::kept::KeptCells;
use cell_types::{Evidence, Geometry, NoMemory, Refusal, memory};
use std::alloc::Global;
use tamper_rules::RESERVE_CELL;

/// The slots below the horizon, each of which has ended, and the edge.
#[derive(Drop)]
pub struct Log {
    pub slots: Vec<EndedSlot>,
    pub edge: u32,
}

impl Log {
    ghost use Rattle.std.specs.Prelude.{◌≡◌, slice_get};

    /// What has come of a slot, if it is below the horizon.
    pub fn at(&self, slot: u32) -> Option<EndedSlot>
        ensures { result ≡ slice_get self.now.slots.items slot }
    {
        match self.slots.get(slot as usize) {
            Some(ended) => Some(*ended),
            None => None,
        }
    }
}

/// The slots below the horizon, where each of them has ended.
///
/// # Errors
///
/// `Tampered` with the reserve cell of a slot that has not ended, and `NoMemory`.
pub fn log_of(alloc: Global, kept: &KeptCells, geometry: &Geometry) -> Result<Log, Refusal>
    requires { AreMetBelow geometry.now (image_of_kept kept.now) 4 }
    ensures { LogEnds geometry.now (image_of_kept kept.now) result }
{
    let mut slots = room_for_slots(alloc, kept, geometry)?;
    let mut edge = geometry.pool_at();
    for slot in 0..geometry.slots() {
        let cell = geometry.reserve_at(slot);
        let Some(found) = kept.at(cell) else {
            return Ok(Log { slots, edge });
        };
        let Some(ended) = ended_slot(kept, geometry, slot) else {
            return Err(Refusal::Tampered(Evidence {
                rule: RESERVE_CELL,
                cell,
                found,
            }));
        };
        edge = ended.end();
        memory::push(&mut slots, ended)?;
    }
    Ok(Log { slots, edge })
}

/// No slot yet, and room for all: it is taken at once, since a row that grows is there twice while it is copied.
fn room_for_slots(
    alloc: Global,
    kept: &KeptCells,
    geometry: &Geometry,
) -> Result<Vec<EndedSlot>, NoMemory>
    ensures { IfOk result (λ slots. slots.items ≡ []) }
{
    let slots = memory::with_capacity(alloc, reserved_slots(kept, geometry) as usize)?;
    Ok(slots)
}

/// How many slots from the first one on have a written reserve cell.
fn reserved_slots(kept: &KeptCells, geometry: &Geometry) -> u32 {
    for slot in 0..geometry.slots() {
        if kept.at(geometry.reserve_at(slot)).is_none() {
            return slot;
        }
    }
    geometry.slots()
}
