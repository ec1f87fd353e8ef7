//! Begins a command on a device in memory with its plan: which calls fail, where it stops, what others write.
//!
//! On a device of 1,000 cells, of which 11 are written, `begin_with` and the plan `stop: Step(12)`
//!
//!     takes room for 2 * 1,000 + 32 changes, and for one mark
//!     begins a command                         steps 0, calls 0, nothing planned
//!     plans its stop, what fails, and what others write, in the order of the plan
//!
//! Two changes of each cell are more than the calls of a command can record, so the command goes by its plan: it never
//! meets a call without room, and faults and foreign writes are those of the plan (`a_plan_is_kept` of `worm_memory`).
//! The 32 changes more are room for a crash or a foreign write by hand.
//!
//! `specs/Beginnings.antt` says how the device stands as the command begins.
ghost use Rattle.std.specs.Prelude.{◌≡◌, ◌≤◌, ◌*◌, ◌+◌, ◌++◌, true, OnOk};
ghost use Rattle.std.specs.List.{All};
ghost use Rattle.worm_memory.specs.Device.{HasMarkRoom, memory_of, room_of};
ghost use Rattle.worm_memory.specs.Memory.{is_early, with_begin};
ghost use Rattle.script_events.specs.Events.{IsPlanOn, IsTimedOn};
ghost use Rattle.script_replies.specs.Beginnings.{begun_with, with_failures, with_foreign_planned};
ghost use Rattle.script_replies.specs.declared.beginning.TheConstants.{MAX_REPLAYED_CELLS};

use cell_types::NoMemory;
use script_events::{Schedule, Timed};
use worm_device::Device;
use worm_memory::{MemoryDevice, Moment};

/// How many changes are reserved for one event, beside two for each cell.
pub const SPARE_CHANGES: u32 = 32;

/// The greatest number of cells of a device on which events are carried out: the number of changes that are reserved for
/// one event has 32 bits.
pub const MAX_REPLAYED_CELLS: u32 = 2_147_483_631;

/// Begins a command with this plan, and with room for all that its calls may record.
pub fn begin_with(device: &mut MemoryDevice, plan: &Schedule) -> Result<(), NoMemory>
    requires cells { (memory_of device.old).cells ≤ MAX_REPLAYED_CELLS }
    requires inside { IsPlanOn (memory_of device.old).cells plan.now }
    ensures { OnOk result (memory_of device.new ≡ begun_with plan.now (memory_of device.old)) }
{
    begin_by_hand(device)?;
    if let Some(moment) = plan.stop {
        device.stop_after(moment);
    }
    plan_failures(device, plan.fail.as_slice())?;
    plan_foreign(device, plan.foreign.as_slice())
}

/// Begins a command with no plan, and with room for a crash or a foreign write besides.
pub fn begin_by_hand(device: &mut MemoryDevice) -> Result<(), NoMemory>
    requires cells { (memory_of device.old).cells ≤ MAX_REPLAYED_CELLS }
    ensures begins { OnOk result (memory_of device.new ≡ with_begin true (memory_of device.old)) }
    ensures room { OnOk result (2 * (memory_of device.old).cells + SPARE_CHANGES ≤ room_of device.new) }
{
    device.reserve(2 * device.cells() + SPARE_CHANGES)?;
    device.begin();
    Ok(())
}

/// Plans that these calls fail.
fn plan_failures(device: &mut MemoryDevice, fails: &[Moment]) -> Result<(), NoMemory>
    requires { is_early (memory_of device.old) ≡ true }
    ensures { OnOk result (memory_of device.new ≡ with_failures fails.now (memory_of device.old)) }
{
    for moment in fails {
        device.fail_at(*moment)?;
    }
    Ok(())
}

/// Plans what others write.
fn plan_foreign(device: &mut MemoryDevice, foreign: &[Timed]) -> Result<(), NoMemory>
    requires early { is_early (memory_of device.old) ≡ true }
    requires inside { All (IsTimedOn (memory_of device.old).cells) foreign.now }
    ensures { OnOk result (memory_of device.new ≡ with_foreign_planned foreign.now (memory_of device.old)) }
{
    for timed in foreign {
        device.foreign_before(timed.before, timed.at, timed.cell)?;
    }
    Ok(())
}
