//! What a program asks of the files of a host. No clause can say which file a path leads to, nor what it holds, but one
//! can say that this file was come to by this path.
ghost use Rattle.std.specs.Prelude.{◌≡◌, ℕ, List, Option, IfSome};
ghost use Rattle.host_files.specs.Device.{SureStands};
ghost use Rattle.program_host.specs.declared.file_number.FileNumber.{FileNumber};

use crate::file_number::FileNumber;
use host_files::HostFile;

/// A host with files, which its paths lead to.
///
/// Whoever is generic over it comes to a file by a call of it alone, and knows nothing of a state of the host but by
/// which calls it was come to. So no body meets a clause on `opened` that opens another file, or none.
pub trait FileHost {
    /// A file that is open.
    type File: HostFile + Drop;

    /// This path was opened, and this file came of it, if any, which led from one state of the host to another.
    ghost opened: { Self → List ℕ → Option Self.File → Self → Type 0 };

    /// Which file this path leads to, if to any, was asked.
    ghost numbered: { Self → List ℕ → Option FileNumber → Self → Type 0 };

    /// The first file was held, and then the second, if both were to be had: of each there is what it was, and what it
    /// is.
    ghost held: { Self → Self.File → Self.File → Self.File → Self.File → Self → Type 0 };

    /// Opens a file that exists, for reading and, where the host allows it, writing. It neither makes nor empties one.
    /// What is sure of the file stands.
    fn open(&mut self, path: &str) -> Option<Self::File>
        ensures opened { opened self.old path.now result self.new }
        ensures stands { IfSome result (λ file. (cells : ℕ) → SureStands cells (Self.File.state file).told) };

    /// Which file the path leads to, if it leads to one.
    fn number_of(&mut self, path: &str) -> Option<FileNumber>
        ensures { numbered self.old path.now result self.new };

    /// Waits until nobody else holds either file, the first one first, and holds both until they are closed. A file
    /// that can't be held says so again at its first read, and why is told then.
    fn hold_both(&mut self, first: &mut Self::File, second: &mut Self::File)
        ensures held { held self.old first.old first.new second.old second.new self.new }
        ensures first { Self.File.state first.new ≡ Self.File.state first.old }
        ensures second { Self.File.state second.new ≡ Self.File.state second.old };
}
