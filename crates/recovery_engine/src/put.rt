//! One cell that is to hold a value, and rows of them: cells that are put onto a device in phases, each of them sure
//! before the next begins.
//!
//! A **put** is a cell that is to hold a value, and what is named where it holds another. A **phase** is a row of puts
//! and one sync behind them; a command that writes is a row of phases. So an ingest into slot 0, of one document cell and
//! a journal of two cells:
//!
//!     phase 0    reserve   cell 4             sync
//!     phase 1    store     cells 580 to 582   sync
//!     phase 2    commit    cell 5             sync
//!     phase 3    apply     cells 36 and 560   sync
//!     phase 4    finish    cell 6             sync
//!
//! A crash at any moment leaves all cells of the phases before some phase, any of that phase, and, where nobody else
//! writes, none of those behind (`LeavesPhases`): with a commit cell the document is there, whole. Where a cell is
//! taken by another value the row ends, in a phase that is told, with all before it sure (`IsTakenIn`).
//!
//! No list of phases is built. Each phase is a call that says which cells it puts (`PutsPhase` of a predicate), and a
//! row of such calls is a row of phases (`PutsPhases`) by the lemmas of proofs/Phasing.antt.
//!
//! `specs/Putting.antt` says what it means that cells are put.
ghost use Rattle.std.specs.Prelude.{◌≡◌, ◌<◌};
ghost use Rattle.recovery_engine.specs.Putting.{Puts, IsThis, evidence_of};

use cell_types::{Cell, Fault, breach};
use tamper_rules::OTHER_TARGET;
use worm_device::{Device, Written};

/// What is named where a cell holds something else than it is to hold.
#[derive(Clone, Copy)]
pub enum Blame {
    /// What stands in the cell, which breaks the rule of this number.
    Rule(u8),
    /// The journal cell of this number, which asks for the value: its target holds another.
    Journal(u32),
}

/// A cell by its number, what it is to hold, and what is named where it holds something else.
#[derive(Clone, Copy)]
pub struct Put {
    pub at: u32,
    pub value: Cell,
    pub blame: Blame,
}

impl Put {
    ghost use Rattle.cell_types.specs.declared.refusal.Fault.TheVariants.{Tampered};

    /// The fault where this was found in the cell.
    fn fault(&self, found: Cell) -> Fault
        ensures { result ≡ Tampered (evidence_of self.now found) }
    {
        match self.blame {
            Blame::Rule(rule) => breach(rule, self.at, found),
            Blame::Journal(cell) => breach(OTHER_TARGET, cell, self.value),
        }
    }
}

/// Writes a cell. One that holds already what it is to hold is passed; one that holds something else is named.
pub fn put_cell<D: Device>(device: &mut D, put: &Put) -> Result<(), Fault>
    requires { put.now.at < (D.state device.old).cells }
    ensures { Puts (IsThis put.now) (D.state device.old) (D.state device.new) result }
{
    let written = device.write(put.at, put.value)?;
    if let Written::Taken(found) = written {
        if found != put.value {
            return Err(put.fault(found));
        }
    }
    Ok(())
}
