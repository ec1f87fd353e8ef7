//! What a device needs of a file: bytes that are read and written at places, and made sure.
ghost use Rattle.std.specs.Prelude.{◌≡◌, ◌≤◌, ◌+◌, ◌%◌, length};
ghost use Rattle.host_files.specs.File.{FileState, IsFile, IsAsked, WasReadBlank, ReadsAt, WritesAt, WritesPlaces, Flushes};

use worm_device::Failed;

/// A file of so many bytes, which stays as long as it is. Sixteen bytes that begin at a multiple of 16 are a place.
pub trait HostFile {
    /// What the file is, for contracts.
    ghost state: { Self → FileState };

    /// How many bytes it has.
    fn size(&self) -> u64
        ensures size { result ≡ (state self.now).size };

    /// Reads just as many bytes as the slice has, from an offset on. After a failure what the slice holds is left
    /// open.
    fn read_at(&mut self, into: &mut [u8], from: u64) -> Result<(), Failed>
        requires { from + length into.old ≤ (state self.old).size }
        ensures { ReadsAt from into.new (state self.old) (state self.new) result };

    /// Writes sixteen bytes at a place, over the zeros that the last call found there. After a failure any of them
    /// may have got there.
    fn write_at(&mut self, piece: &[u8; 16], from: u64) -> Result<(), Failed>
        requires inside { from + 16 ≤ (state self.old).size }
        requires place { from % 16 ≡ 0 }
        requires asked { IsAsked from (state self.old) }
        ensures { WritesAt from piece.now (state self.old) (state self.new) result };

    /// Writes places one after another, over the zeros that the last call found there. After a failure any bytes of
    /// them may have got there.
    fn write_places(&mut self, bytes: &[u8], from: u64) -> Result<(), Failed>
        requires inside { from + length bytes.now ≤ (state self.old).size }
        requires place { from % 16 ≡ 0 }
        requires whole { length bytes.now % 16 ≡ 0 }
        requires asked { WasReadBlank from (length bytes.now) (state self.old) }
        ensures { WritesPlaces from bytes.now (state self.old) (state self.new) result };

    /// Makes all bytes sure.
    fn sync(&mut self) -> Result<(), Failed>
        ensures { Flushes (state self.old) (state self.new) result };

    /// What holds of every file.
    ghost proper: { (file : Self) → IsFile (state file) };
}
