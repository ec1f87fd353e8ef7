//! Files of the operating system, opened by their paths.
ghost use Rattle.std.specs.Prelude.{◌≡◌, ⊤};
ghost use Rattle.program_host.specs.Holding.{HoldsInOrder};
ghost use Rattle.host_files.specs.OsFile.{os_file_state};

use crate::file_number::FileNumber;
use crate::host::FileHost;
use crate::waiting::WaitingFile;
use host_files::{HostCalls, OsFile, open_file};
use std::io::Stderr;
use std::os::unix::fs::MetadataExt;
use std::rt::Files;

/// A file of the host that tells a terminal what it waits for.
pub type HeldFile<F> = OsFile<WaitingFile<F>>;

/// The files of the operating system.
pub struct SystemFiles<'a, R> {
    rt: &'a R,
    standard_error: Stderr,
}

impl<'a, R> SystemFiles<'a, R> {
    /// Those of this runtime. That a file is waited for is told here.
    pub fn new(rt: &'a R, standard_error: Stderr) -> SystemFiles<'a, R> {
        SystemFiles { rt, standard_error }
    }
}

impl<R> Drop for SystemFiles<'_, R> {
    fn drop(self) {
        let SystemFiles {
            rt: _,
            standard_error: _,
        } = self;
    }
}

/// The calls of the operating system. That each does what is said of it is trusted: of this host `opened` and
/// `numbered` say nothing.
impl<R: Files<File: HostCalls>> FileHost for SystemFiles<'_, R> {
    type File = HeldFile<R::File>;

    ghost opened = { λ _ _ _ _. ⊤ };

    ghost numbered = { λ _ _ _ _. ⊤ };

    ghost held = { λ _ first held_first second held_second _.
        HoldsInOrder ⟦<WaitingFile<R::File> as HostCalls>⟧.made first held_first second held_second };

    fn open(&mut self, path: &str) -> Option<HeldFile<R::File>> {
        let Ok(file) = open_file(self.rt, path) else {
            return None;
        };
        match OsFile::of(WaitingFile::new(file, self.standard_error)) {
            Ok(file) => Some(file),
            Err(_) => None,
        }
    }

    fn number_of(&mut self, path: &str) -> Option<FileNumber> {
        let found = self.rt.metadata(path).ok()?;
        Some(FileNumber {
            device: found.dev(),
            inode: found.ino(),
        })
    }

    fn hold_both(&mut self, first: &mut HeldFile<R::File>, second: &mut HeldFile<R::File>) {
        hold_in_order(first, second);
    }
}

/// Waits until nobody else holds either file, the first one first: where all keep to one order, no two programs wait
/// for each other.
fn hold_in_order<F: HostCalls>(first: &mut HeldFile<F>, second: &mut HeldFile<F>)
    ensures order { HoldsInOrder ⟦<WaitingFile<F> as HostCalls>⟧.made first.old first.new second.old second.new }
    ensures first { os_file_state first.new ≡ os_file_state first.old }
    ensures second { os_file_state second.new ≡ os_file_state second.old }
{
    if first.begin().is_ok() {
        let _ = second.begin();
    }
}
