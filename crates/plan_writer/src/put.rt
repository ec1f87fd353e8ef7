//! A plan, put into the free slot at the horizon of a settled volume.
ghost use Rattle.std.specs.Prelude.{◌≡◌, ◌<◌, IsOk};
ghost use Rattle.worm_device.specs.State.{DeviceState};
ghost use Rattle.recovery_engine.specs.Settling.{HasSettled, LiesInBounds};
ghost use Rattle.plan_writer.specs.Planned.{Suits};
ghost use Rattle.plan_writer.specs.PuttingPlans.{PutPlanEnds, PutsPlan};

use crate::blank::check_blank;
use crate::plan::{Plan, carry_out};
use cell_types::Fault;
use recovery_engine::Ready;
use worm_device::Device;

/// Puts what is planned into the slot at the horizon of a volume that was settled, and has only been looked at since.
/// Answers the slot; then no call of the device has failed, since none is tried a second time. Takes no memory.
///
/// # Errors
///
/// `Tampered` where a cell that is to be written holds another value: rule 1 at the reserve cell, 2 at the outcome
/// cell, 3 at the done cell, 7 at the spare cell and in the cells that are reserved, 6 at a journal cell whose target
/// is taken.
pub fn put_planned<D: Device>(device: &mut D, ready: &Ready, plan: &Plan<'_>) -> Result<u32, Fault>
    requires bounds { LiesInBounds (D.state device.old) ready.now }
    requires free { ready.now.horizon < ready.now.volume.geometry.slots }
    requires starts { plan.now.start ≡ ready.now.edge }
    requires suits { Suits ready.now.volume.geometry plan.now }
    ensures puts { PutsPlan ready.now.horizon plan.now (D.state device.old) (D.state device.new) }
    ensures unfailed { IsOk result → (D.state device.new).faults ≡ (D.state device.old).faults }
    ensures ends { (earlier : DeviceState) → HasSettled earlier (D.state device.old) ready.now →
        PutPlanEnds ready.now.volume.geometry plan.now ready.now.horizon earlier (D.state device.old) (D.state device.new)
        result }
{
    let geometry = ready.volume.geometry;
    let slot = ready.horizon;
    check_blank(device, &geometry, slot, plan.reservation())?;
    carry_out(device, &geometry, slot, plan)?;
    Ok(slot)
}
