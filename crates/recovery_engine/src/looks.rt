//! Looks at a device, as calls on the device itself.
ghost use Rattle.std.specs.Prelude.{◌≡◌, ◌<◌, ◌≤◌, ◌+◌, ◌↔◌, IfOk, IsErr, IsNone, IsOk, IsSome, IsTrue, Some};
ghost use Rattle.cell_types.specs.Image.{IsUnchanged};
ghost use Rattle.cell_types.specs.Layout.{reserve_at};
ghost use Rattle.worm_device.specs.Calls.{Called};
ghost use Rattle.worm_device.specs.Counts.{Rose, IsStill};
ghost use Rattle.worm_device.specs.Views.{Viewed, seen_directly};
ghost use Rattle.commit_record.specs.LogEnds.{IsLastReserve, IsLogEnd};
ghost use Rattle.commit_record.specs.Opening.{OpenEnds};
ghost use Rattle.commit_record.specs.Reservations.{reservation_of};
ghost use Rattle.recovery_engine.specs.LastSlot.{LastEnds};

use crate::ordered::last_slot;
use cell_types::{Cell, Fault, Volume};
use commit_record::{LogEnd, OpenRefusal, SlotState, end_of_log, volume_of};
use worm_device::{Device, Direct, Failed};

/// The volume that the device states.
pub fn open_device<D: Device>(device: &mut D) -> Result<Volume, OpenRefusal>
    ensures called { Called (D.state device.old) (D.state device.new) }
    ensures quiet { IsStill (D.state device.old).foreign_writes (D.state device.new).foreign_writes →
        IsUnchanged (D.state device.old).image (D.state device.new).image }
    ensures reads { (D.state device.new).reads ≤ (D.state device.old).reads + 1 }
    ensures read { Rose (D.state device.old).reads (D.state device.new).reads }
    ensures ends { OpenEnds (seen_directly (D.state device.old) 0) (seen_directly (D.state device.new) 0) result }
{
    let found = device.read(0)?;
    volume_of(found, device.cells())
}

/// Where the log of the volume on the device ends.
pub fn log_end_of_device<D: Device>(device: &mut D, volume: &Volume) -> Result<LogEnd, Failed>
    requires { volume.now.geometry.cells ≤ (D.state device.old).cells }
    ensures called { Called (D.state device.old) (D.state device.new) }
    ensures quiet { IsStill (D.state device.old).foreign_writes (D.state device.new).foreign_writes →
        IsUnchanged (D.state device.old).image (D.state device.new).image }
    ensures reads { (D.state device.new).reads ≤ (D.state device.old).reads + 26 }
    ensures unfailed { IsOk result → (D.state device.new).faults ≡ (D.state device.old).faults }
    ensures within { IfOk result (λ log. log.horizon ≤ volume.now.geometry.slots) }
    ensures none { IfOk result (λ log. IsNone log.last ↔ (log.horizon ≡ 0)) }
    ensures horizon { IsTrue (D.state device.old).tells → IfOk result (λ log.
        IsLogEnd volume.now.geometry (D.state device.old).image (D.state device.new).image log.horizon) }
    ensures last { IsTrue (D.state device.old).tells → IfOk result (λ log.
        IsLastReserve (D.state device.new).image log.horizon log.last) }
    ensures cause { IsErr result → Rose (D.state device.old).faults (D.state device.new).faults }
{
    end_of_log(&mut Direct::new(device), volume)
}

/// The last slot of the log on the device, by its reserve cell.
pub fn last_slot_of_device<D: Device>(
    device: &mut D,
    volume: &Volume,
    last: u32,
    reserve: Cell,
) -> Result<SlotState, Fault>
    requires slot { last < volume.now.geometry.slots }
    requires size { volume.now.geometry.cells ≤ (D.state device.old).cells }
    requires stands { IsTrue (D.state device.old).tells →
        (D.state device.old).image (reserve_at last) ≡ Some reserve }
    ensures called { Called (D.state device.old) (D.state device.new) }
    ensures quiet { IsStill (D.state device.old).foreign_writes (D.state device.new).foreign_writes →
        IsUnchanged (D.state device.old).image (D.state device.new).image }
    ensures reads { (D.state device.new).reads ≤ (D.state device.old).reads + 7 }
    ensures unfailed { IsOk result → (D.state device.new).faults ≡ (D.state device.old).faults }
    ensures used { IfOk result (λ state. IsSome (reservation_of state)) }
    ensures ends { LastEnds volume.now.geometry last (seen_directly (D.state device.old) 0)
        (seen_directly (D.state device.new) 0) result }
{
    last_slot(&mut Direct::new(device), volume, last, reserve)
}
