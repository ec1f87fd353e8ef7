//! The pool, and record cells that are planned.
ghost use Rattle.std.specs.Prelude.{◌≡◌, ◌<◌, ◌≤◌, ◌↔◌, IsNone, IfSome, IfNone};
ghost use Rattle.cell_pool.specs.Grants.{TakesFront, free_cells};
ghost use Rattle.cell_pool.specs.Records.{PlansRecord};
ghost use Rattle.cell_types.specs.Records.{IsWellFormed};
ghost use Rattle.worm_device.specs.Overlays.{of_overlay};

use cell_pool::{PlanFault, Pool, plan_record};
use cell_types::RecordCell;
use worm_device::{OVERLAY_CELLS, Overlay, Owner, View};

/// `Pool::grant`.
pub fn grant_again(pool: &mut Pool, size: u32) -> Option<u32>
    requires { 1 ≤ size }
    ensures full { IsNone result ↔ (free_cells pool.old < size) }
    ensures granted { IfSome result (TakesFront pool.old pool.new size) }
    ensures unchanged { IfNone result (pool.new ≡ pool.old) }
{
    pool.grant(size)
}

/// `plan_record`.
pub fn plan_record_again<V: View>(
    overlay: &mut Overlay<'_, V>,
    at: u32,
    value: RecordCell,
    owner: Owner,
) -> Result<(), PlanFault>
    requires inside { at < OVERLAY_CELLS }
    requires well_formed { IsWellFormed value at }
    ensures { PlansRecord at value owner (of_overlay V.seen overlay.old) (of_overlay V.seen overlay.new) result }
{
    plan_record(overlay, at, value, owner)
}
