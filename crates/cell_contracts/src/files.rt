//! A device over a file, and a file whose reads are told to a meter.
ghost use Rattle.std.specs.Prelude.{◌<◌, ◌≤◌, ◌+◌, length};
ghost use Rattle.worm_device.specs.Calls.{Reads, Syncs, Writes};
ghost use Rattle.host_files.specs.File.{ReadsAt};
ghost use Rattle.host_files.specs.Metered.{file_in};
ghost use Rattle.host_files.specs.Over.{state_over};

use cell_types::Cell;
use host_files::{FileDevice, HostFile, MeteredFile};
use host_ports::Meter;
use worm_device::{Device, Failed, Written};

/// `Device::read` of a device over a file.
pub fn read_file_again<F: HostFile>(
    device: &mut FileDevice<F>,
    at: u32,
) -> Result<Option<Cell>, Failed>
    requires { at < (state_over device.old).cells }
    ensures { Reads at (state_over device.old) (state_over device.new) result }
{
    device.read(at)
}

/// `Device::write` of a device over a file.
pub fn write_file_again<F: HostFile>(
    device: &mut FileDevice<F>,
    at: u32,
    value: Cell,
) -> Result<Written, Failed>
    requires { at < (state_over device.old).cells }
    ensures { Writes at value (state_over device.old) (state_over device.new) result }
{
    device.write(at, value)
}

/// `Device::sync` of a device over a file.
pub fn sync_file_again<F: HostFile>(device: &mut FileDevice<F>) -> Result<(), Failed>
    ensures { Syncs (state_over device.old) (state_over device.new) result }
{
    device.sync()
}

/// `HostFile::read_at` of a file that tells a meter.
pub fn read_at_again<F: HostFile, M: Meter>(
    file: &mut MeteredFile<F, M>,
    into: &mut [u8],
    from: u64,
) -> Result<(), Failed>
    requires { from + length into.old ≤ (F.state (file_in file.old)).size }
    ensures { ReadsAt from into.new (F.state (file_in file.old)) (F.state (file_in file.new)) result }
{
    file.read_at(into, from)
}
