//! A file of the operating system, by what its calls ask of the host.
ghost use Rattle.std.specs.Prelude.{◌≡◌, ◌≤◌, ◌+◌, ◌%◌, length};
ghost use Rattle.host_files.specs.File.{Flushes, IsAsked, ReadsAt, WasReadBlank, WritesAt, WritesPlaces};
ghost use Rattle.host_files.specs.OsFile.{AsksToRead, AsksToSync, AsksToWrite, Begins, os_file_state};

use host_files::{HostCalls, HostFile, OsFile};
use std::io;
use worm_device::Failed;

/// `OsFile::begin`.
pub fn begin_again<F: HostCalls>(file: &mut OsFile<F>) -> io::Result<()>
    ensures state { os_file_state file.new ≡ os_file_state file.old }
    ensures begins { Begins F.made file.old file.new result }
{
    file.begin()
}

/// `HostFile::read_at` of a file of the operating system.
pub fn read_host_again<F: HostCalls>(
    file: &mut OsFile<F>,
    into: &mut [u8],
    from: u64,
) -> Result<(), Failed>
    requires { from + length into.old ≤ (os_file_state file.old).size }
    ensures reads { ReadsAt from into.new (os_file_state file.old) (os_file_state file.new) result }
    ensures asks { AsksToRead F.made from into.new file.old file.new result }
{
    file.read_at(into, from)
}

/// `HostFile::write_at` of a file of the operating system.
pub fn write_host_again<F: HostCalls>(
    file: &mut OsFile<F>,
    piece: &[u8; 16],
    from: u64,
) -> Result<(), Failed>
    requires inside { from + 16 ≤ (os_file_state file.old).size }
    requires place { from % 16 ≡ 0 }
    requires asked { IsAsked from (os_file_state file.old) }
    ensures writes { WritesAt from piece.now (os_file_state file.old) (os_file_state file.new) result }
    ensures asks { AsksToWrite F.made from piece.now file.old file.new result }
{
    file.write_at(piece, from)
}

/// `HostFile::write_places` of a file of the operating system.
pub fn write_host_places_again<F: HostCalls>(
    file: &mut OsFile<F>,
    bytes: &[u8],
    from: u64,
) -> Result<(), Failed>
    requires inside { from + length bytes.now ≤ (os_file_state file.old).size }
    requires place { from % 16 ≡ 0 }
    requires whole { length bytes.now % 16 ≡ 0 }
    requires asked { WasReadBlank from (length bytes.now) (os_file_state file.old) }
    ensures writes { WritesPlaces from bytes.now (os_file_state file.old) (os_file_state file.new) result }
    ensures asks { AsksToWrite F.made from bytes.now file.old file.new result }
{
    file.write_places(bytes, from)
}

/// `HostFile::sync` of a file of the operating system.
pub fn sync_host_again<F: HostCalls>(file: &mut OsFile<F>) -> Result<(), Failed>
    ensures flushes { Flushes (os_file_state file.old) (os_file_state file.new) result }
    ensures asks { AsksToSync F.made file.old file.new result }
{
    file.sync()
}
