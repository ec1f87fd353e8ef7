//! What an ingest writes.
ghost use Rattle.std.specs.Prelude.{◌≡◌, ◌<◌, ◌≤◌, ◌^◌};
ghost use Rattle.recovery_engine.specs.Putting.{PutsPhases};
ghost use Rattle.plan_writer.specs.Planned.{INGEST_PHASES, Suits, ingest_phases, reserved_by};

use crate::steps::{commit, reserve, store};
use cell_types::{Cell, Fault, Geometry};
use commit_record::Reservation;
use recovery_engine::{apply_journal, finish, journal_of};
use worm_device::Device;

/// What an ingest writes: blocks, document and journal, in this order, from one cell of the pool on.
#[derive(Clone, Copy)]
pub struct Plan<'a> {
    /// The first cell that is reserved.
    pub start: u32,
    /// How many cells posting blocks and hash nodes have.
    pub block_length: u32,
    /// The document's content cells.
    pub document: &'a [Cell],
    /// A copy of each index cell that is to be written, in rising order of their addresses.
    pub journal: &'a [Cell],
    /// How many stored bytes the document has.
    pub bytes: u32,
    /// The seconds of the document's stamp, on a volume of stamped documents.
    pub stamp: Option<u32>,
}

impl Plan<'_> {
    /// The cells that are reserved.
    pub fn reservation(&self) -> Reservation
        requires { (reserved_by self.now).length < 2 ^ 32 }
        ensures { result ≡ reserved_by self.now }
    {
        Reservation {
            start: self.start,
            length: self.block_length + self.document.len() as u32 + self.journal.len() as u32,
        }
    }
}

/// Carries a plan out, in five phases.
pub fn carry_out<D: Device>(
    device: &mut D,
    geometry: &Geometry,
    slot: u32,
    plan: &Plan<'_>,
) -> Result<(), Fault>
    requires slot { slot < geometry.now.slots }
    requires size { geometry.now.cells ≤ (D.state device.old).cells }
    requires suits { Suits geometry.now plan.now }
    ensures { PutsPhases (ingest_phases slot plan.now) INGEST_PHASES (D.state device.old) (D.state device.new) result }
{
    let cells = plan.reservation();
    reserve(device, geometry, slot, cells)?;
    store(device, geometry, slot, plan)?;
    // Stamp, document and journal are sure by now: else a crash could leave a commit cell without them.
    let count = plan.journal.len() as u32;
    commit(device, geometry, slot, plan.bytes, count)?;
    let journal = journal_of(geometry, slot, cells, plan.bytes, count);
    apply_journal(device, &journal)?;
    finish(device, geometry, slot)
}
