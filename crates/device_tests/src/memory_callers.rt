//! Callers that need no proof: what a device in memory tells those who hold one.
ghost use Rattle.std.specs.Prelude.{◌≡◌, ◌<◌, ◌≤◌, true, Some, None, IsTrue, IsErr, IfOk, OnOk};
ghost use Rattle.cell_types.specs.Image.{Extends};
ghost use Rattle.worm_device.specs.Calls.{Called};
ghost use Rattle.worm_device.specs.Counts.{IsStill, Rose};
ghost use Rattle.worm_memory.specs.Device.{memory_of, room_of, state_of, ForeignWrites};
ghost use Rattle.worm_memory.specs.Memory.{KeepsPlan};
ghost use Rattle.worm_memory.specs.Plans.{no_plan};

use cell_types::{Cell, NoMemory};
use worm_device::{Device, Failed, Written};
use worm_memory::{MemoryDevice, Moment};

/// Writes two cells and syncs. Answers whether both were blank.
fn write_two<D: Device>(device: &mut D, first: Cell, second: Cell) -> Result<bool, Failed>
    requires { 2 < (D.state device.old).cells }
    ensures called { Called (D.state device.old) (D.state device.new) }
    ensures cause { IsErr result → Rose (D.state device.old).faults (D.state device.new).faults }
    ensures sure { IsTrue (D.state device.old).tells → IfOk result (λ both. IsTrue both →
        ((D.state device.new).sure 1 ≡ Some first) × ((D.state device.new).sure 2 ≡ Some second)) }
{
    let one = device.write(1, first)?;
    let two = device.write(2, second)?;
    device.sync()?;
    Ok(one == Written::Done && two == Written::Done)
}

/// What a generic caller says of any device is known of this one.
fn write_two_in_memory(device: &mut MemoryDevice, first: Cell, second: Cell) -> Result<bool, Failed>
    requires { 2 < (memory_of device.old).cells }
    ensures cause { IsErr result → Rose (memory_of device.old).faults (memory_of device.new).faults }
    ensures sure { IfOk result (λ both. IsTrue both →
        ((state_of device.new).sure 1 ≡ Some first) × ((state_of device.new).sure 2 ≡ Some second)) }
{
    write_two(device, first, second)
}

/// Where there is room and nothing is planned, no call fails.
fn keep(device: &mut MemoryDevice, at: u32, value: Cell) -> bool
    requires inside { at < (memory_of device.old).cells }
    requires free { (state_of device.old).image at ≡ None }
    requires room { 2 ≤ room_of device.old }
    requires unplanned { (memory_of device.old).plan ≡ no_plan }
    ensures kept { IsTrue result }
    ensures sure { (state_of device.new).sure at ≡ Some value }
{
    device.write(at, value).is_ok() && device.sync().is_ok()
}

/// Reads one cell twice, while somebody else may write it in between. What a generic caller says of others' writes is
/// known of this device too: where its count of foreign writes did not rise, both reads answer the same.
fn look_twice<D: Device>(device: &mut D, at: u32) -> Result<bool, Failed>
    requires { at < (D.state device.old).cells }
    ensures same { IsTrue (D.state device.old).tells →
        IsStill (D.state device.old).foreign_writes (D.state device.new).foreign_writes →
        IfOk result (λ same. IsTrue same) }
{
    let first = device.read(at)?;
    let second = device.read(at)?;
    Ok(first == second)
}

/// Writes two cells in a command that goes by its plan, and so does any engine's command to its end.
fn write_two_by_plan(device: &mut MemoryDevice, first: Cell, second: Cell) -> Result<bool, Failed>
    requires inside { 2 < (memory_of device.old).cells }
    requires planned { (memory_of device.old).by_plan ≡ true }
    ensures kept { KeepsPlan (memory_of device.new) }
    ensures same { (memory_of device.new).plan ≡ (memory_of device.old).plan }
{
    write_two(device, first, second)
}

/// A command from its beginning: with enough room and a plan that stands before its first call, an engine may do what it
/// does, and faults and others' writes are just those that are planned.
fn write_two_as_planned(
    device: &mut MemoryDevice,
    first: Cell,
    second: Cell,
) -> Result<(), NoMemory>
    requires inside { 2 < (memory_of device.old).cells }
    requires few { (memory_of device.old).cells ≤ 65_536 }
    ensures kept { OnOk result (KeepsPlan (memory_of device.new)) }
{
    device.reserve(2 * device.cells() + 32)?;
    device.begin();
    device.fail_at(Moment::Step(2))?;
    device.foreign_before(Moment::Call(3), 2, first)?;
    device.stop_after(Moment::Call(4));
    let _ = write_two_by_plan(device, first, second);
    Ok(())
}

/// Somebody else writes, and then makes nothing sure: what was sure stays, and a crash may leave the foreign cell.
fn write_as_another(device: &mut MemoryDevice, at: u32, value: Cell) -> Result<Written, Failed>
    requires { at < (memory_of device.old).cells }
    ensures writes { ForeignWrites (state_of device.old) (state_of device.new) }
    ensures sure { Extends (state_of device.old).sure (state_of device.new).sure }
{
    device.foreign(at, value)
}
