//! A file that says on a terminal when it has to wait for another program.
ghost use Rattle.std.specs.Prelude.{◌≡◌};
ghost use Rattle.program_host.specs.Waiting.{WaitsBy, file_below};

use host_files::HostCalls;
use std::io::{self, IsTerminal, Stderr};

/// A file of the host. Where another program holds it, a line on standard error says that this one waits, if that is a
/// terminal. All else is the file below.
#[derive(Drop)]
pub struct WaitingFile<F> {
    file: F,
    shown_on: Stderr,
}

impl<F> WaitingFile<F> {
    /// This file.
    pub fn new(file: F, shown_on: Stderr) -> WaitingFile<F>
        ensures { file_below result ≡ file }
    {
        WaitingFile { file, shown_on }
    }
}

impl<F: HostCalls> HostCalls for WaitingFile<F> {
    ghost made = { λ old call new. WaitsBy F.made (file_below old) call (file_below new) };

    fn hold(&mut self) -> io::Result<()> {
        match self.file.try_hold() {
            Ok(true) => return Ok(()),
            Ok(false) => (),
            Err(error) => return Err(error),
        }
        let shown_on = self.shown_on;
        if shown_on.is_terminal() {
            // Where it cannot be shown, it waits all the same.
            let _ = eprintln!(shown_on; "worm: waiting for another program");
        }
        self.file.hold()
    }

    fn try_hold(&mut self) -> io::Result<bool> {
        self.file.try_hold()
    }

    fn count_bytes(&mut self) -> io::Result<u64> {
        self.file.count_bytes()
    }

    fn read_exact_at(&mut self, into: &mut [u8], from: u64) -> io::Result<()> {
        self.file.read_exact_at(into, from)
    }

    fn write_all_at(&mut self, bytes: &[u8], from: u64) -> io::Result<()> {
        self.file.write_all_at(bytes, from)
    }

    fn sync_data(&mut self) -> io::Result<()> {
        self.file.sync_data()
    }
}
