//! Record cells that are planned one by one over what a view shows, and why an entry may not be planned.
//!
//! A document's index cells are planned before anything is written: postings, pointers, buckets and child cells, each
//! for the list or the tree that it is part of. `plan_record` plans one of them, where nothing is planned yet.
ghost use Rattle.std.specs.Prelude.{◌<◌};
ghost use Rattle.cell_types.specs.Records.{IsWellFormed};
ghost use Rattle.worm_device.specs.Overlays.{of_overlay};
ghost use Rattle.cell_pool.specs.Records.{PlansRecord};

use cell_types::{NoMemory, RecordCell, encode};
use worm_device::{OVERLAY_CELLS, Overlay, Owner, View};

/// Why a cell is not planned. Nothing has changed then.
#[derive(Clone, Copy)]
pub enum PlanFault {
    /// It is planned already.
    Taken,
    /// No memory was to be had.
    NoMemory(NoMemory),
}

/// Plans the cell of a record, unless one is planned there already.
pub fn plan_record<V: View>(
    overlay: &mut Overlay<'_, V>,
    at: u32,
    value: RecordCell,
    owner: Owner,
) -> Result<(), PlanFault>
    requires inside { at < OVERLAY_CELLS }
    requires well_formed { IsWellFormed value at }
    ensures { PlansRecord at value owner (of_overlay V.seen overlay.old) (of_overlay V.seen overlay.new) result }
{
    if overlay.is_planned(at) {
        return Err(PlanFault::Taken);
    }
    match overlay.plan(at, encode(value, at), owner) {
        Ok(()) => Ok(()),
        Err(lack) => Err(PlanFault::NoMemory(lack)),
    }
}
