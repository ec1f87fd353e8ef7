//! Callers that need no proof: what a device over a file in memory tells those who hold one.
ghost use Rattle.std.specs.Prelude.{◌≡◌, ◌<◌, Some, IsErr, IfOk, IsTrue};
ghost use Rattle.worm_device.specs.Counts.{Rose};
ghost use Rattle.host_files.specs.Over.{state_over};

use cell_types::Cell;
use host_files::{FileDevice, MemoryFile};
use worm_device::{Device, Failed, Written};

/// Writes a cell, and makes it sure.
fn write_and_sync<D: Device>(device: &mut D, at: u32, value: Cell) -> Result<bool, Failed>
    requires { at < (D.state device.old).cells }
    ensures sure { IsTrue (D.state device.old).tells
        → IfOk result (λ done. IsTrue done → (D.state device.new).sure at ≡ Some value) }
    ensures cause { IsErr result → Rose (D.state device.old).faults (D.state device.new).faults }
{
    let written = device.write(at, value)?;
    device.sync()?;
    Ok(written == Written::Done)
}

/// The same of a file in memory, where all is told.
fn write_and_sync_file(
    device: &mut FileDevice<MemoryFile>,
    at: u32,
    value: Cell,
) -> Result<bool, Failed>
    requires { at < (state_over device.old).cells }
    ensures sure { IfOk result (λ done. IsTrue done → (state_over device.new).sure at ≡ Some value) }
    ensures cause { IsErr result → Rose (state_over device.old).faults (state_over device.new).faults }
{
    write_and_sync(device, at, value)
}

/// Reads a cell of a file in memory twice.
fn read_twice(device: &mut FileDevice<MemoryFile>, at: u32) -> Result<Option<Cell>, Failed>
    requires { at < (state_over device.old).cells }
    ensures found { IfOk result (λ found. found ≡ (state_over device.new).image at) }
{
    device.read(at)?;
    device.read(at)
}
