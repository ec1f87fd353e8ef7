//! What is asked of an open file of the host. No clause can say what such a file holds or does, but one can say which
//! of these calls were made, in which order, with which bytes, and what they answered.
ghost use Rattle.std.specs.Prelude.{is_ok};
ghost use Rattle.std.specs.Result.{result_ok};
ghost use Rattle.host_files.specs.HostCalls.{HostCall, ToHold, ToTryHold, ToCount, ToRead, ToWrite, ToSync};

use std::fs::{File, TryLockError};
use std::io::{self, Seek, SeekFrom};
use std::os::unix::fs::FileExt;

/// An open file of the host, which one program at a time may hold.
///
/// Whoever is generic over it knows nothing of a state of the file but by which calls it was come to. So no body meets
/// a clause on `made` that makes other calls than it says.
pub trait HostCalls {
    /// This call, with what it answered, led from one state of the file to another.
    ghost made: { Self → HostCall → Self → Type 0 };

    /// Waits until nobody else holds the file, and holds it until it is closed.
    fn hold(&mut self) -> io::Result<()>
        ensures { made self.old (ToHold (is_ok result)) self.new };

    /// Holds the file until it is closed, unless somebody else holds it, and says whether it does.
    fn try_hold(&mut self) -> io::Result<bool>
        ensures { made self.old (ToTryHold (result_ok result)) self.new };

    /// How many bytes it has.
    fn count_bytes(&mut self) -> io::Result<u64>
        ensures { made self.old (ToCount (result_ok result)) self.new };

    /// Fills the slice with the bytes from an offset on.
    fn read_exact_at(&mut self, into: &mut [u8], from: u64) -> io::Result<()>
        ensures { made self.old (ToRead from into.new (is_ok result)) self.new };

    /// Writes all these bytes from an offset on, and no other.
    fn write_all_at(&mut self, bytes: &[u8], from: u64) -> io::Result<()>
        ensures { made self.old (ToWrite from bytes.now (is_ok result)) self.new };

    /// Makes sure all that was written.
    fn sync_data(&mut self) -> io::Result<()>
        ensures { made self.old (ToSync (is_ok result)) self.new };
}

/// The calls of the operating system. That each is made, and does what is said of it above, is trusted: of this type
/// `made` says nothing.
impl HostCalls for File {
    ghost use Rattle.std.specs.Prelude.{⊤};

    ghost made = { λ _ _ _. ⊤ };

    fn hold(&mut self) -> io::Result<()> {
        self.lock()
    }

    fn try_hold(&mut self) -> io::Result<bool> {
        match self.try_lock() {
            Ok(()) => Ok(true),
            Err(TryLockError::WouldBlock) => Ok(false),
            Err(TryLockError::Error(error)) => Err(error),
        }
    }

    /// Where a seek to the end comes to, of a file as of a block device.
    fn count_bytes(&mut self) -> io::Result<u64> {
        self.seek(SeekFrom::End(0))
    }

    fn read_exact_at(&mut self, into: &mut [u8], from: u64) -> io::Result<()> {
        FileExt::read_exact_at(self, into, from)
    }

    fn write_all_at(&mut self, bytes: &[u8], from: u64) -> io::Result<()> {
        FileExt::write_all_at(self, bytes, from)
    }

    fn sync_data(&mut self) -> io::Result<()> {
        File::sync_data(self)
    }
}
