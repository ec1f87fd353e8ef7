//! A device in memory.
ghost use Rattle.std.specs.Prelude.{◌≡◌, ◌<◌, ℕ, false, true, if◌then◌else◌, is_err, is_ok, IsOk, OnOk};
ghost use Rattle.worm_device.specs.Calls.{Reads, Syncs};
ghost use Rattle.worm_memory.specs.Device.{CrashEnds, memory_of, outcome, room_of, state_of};
ghost use Rattle.worm_memory.specs.Losses.{kept_image};
ghost use Rattle.worm_memory.specs.Memory.{with_call, with_planned, with_read};
ghost use Rattle.worm_memory.specs.Outcomes.{after_sync, arrived, goes_on};
ghost use Rattle.worm_memory.specs.Plans.{no_plan};

use cell_types::{Cell, NoMemory};
use worm_device::{Device, Failed};
use worm_memory::{Crash, MemoryDevice, Moment};

/// `Device::read` of a device in memory.
pub fn read_memory_again(device: &mut MemoryDevice, at: u32) -> Result<Option<Cell>, Failed>
    requires { at < (memory_of device.old).cells }
    ensures reads { Reads at (state_of device.old) (state_of device.new) result }
    ensures becomes { outcome device.new (is_err result)
        ≡ arrived false (with_read (memory_of device.old)) (room_of device.old) }
    ensures unplanned { (memory_of device.old).plan ≡ no_plan → IsOk result }
{
    device.read(at)
}

/// `Device::sync` of a device in memory.
pub fn sync_memory_again(device: &mut MemoryDevice) -> Result<(), Failed>
    ensures syncs { Syncs (state_of device.old) (state_of device.new) result }
    ensures becomes { outcome device.new (is_err result)
        ≡ after_sync (arrived true (memory_of device.old) (room_of device.old)) }
    ensures unplanned { (memory_of device.old).plan ≡ no_plan → outcome device.new (is_err result)
        ≡ after_sync (goes_on (with_call true (memory_of device.old)) (room_of device.old)) }
{
    device.sync()
}

/// `MemoryDevice::foreign_before`.
pub fn foreign_before_again(
    device: &mut MemoryDevice,
    moment: Moment,
    at: u32,
    value: Cell,
) -> Result<(), NoMemory>
    requires { at < (memory_of device.old).cells }
    ensures planned { memory_of device.new ≡ (if is_ok result
        then with_planned (memory_of device.old) (record { before = moment; at = at; value = value })
        else memory_of device.old) }
    ensures room { room_of device.new ≡ room_of device.old }
    ensures cells { (memory_of device.new).cells ≡ (memory_of device.old).cells }
{
    device.foreign_before(moment, at, value)
}

/// `MemoryDevice::crash`.
pub fn crash_again(device: &mut MemoryDevice, keep: &[u32]) -> Result<Crash, Failed>
    ensures ends { CrashEnds keep.now device.old device.new result }
    ensures image { OnOk result ((cell : ℕ) → (state_of device.new).image cell
        ≡ kept_image keep.now (state_of device.old).image (state_of device.old).sure cell) }
    ensures sure { OnOk result ((cell : ℕ) → (state_of device.new).sure cell ≡ (state_of device.new).image cell) }
    ensures cells { (memory_of device.new).cells ≡ (memory_of device.old).cells }
{
    device.crash(keep)
}
