//! The program: `worm IMAGE COMMAND ..`. It opens the device, and hands it to `run` with the words of the command,
//! standard input and standard output.
//!
//!     worm volume.img format 8 2
//!     worm volume.img ingest invoice-4711 < invoice.txt
//!     worm volume.img find paid 4711
//!     worm volume.img lookup invoice-4711 > invoice.txt
//!     worm volume.img recover
//!     worm volume.img audit
//!     worm volume.img receipt invoice-4711 > invoice.receipt
//!     worm volume.img check < invoice.receipt
//!     worm volume.img copy archive.img 1000 64
//!     worm - replay < script.json
//!     worm - exercise 200
//!
//! On a volume of stamped documents, which `format 8 2 3` makes, each `ingest` has the seconds of a stamp behind the
//! identifier, as in `ingest invoice-4711 1767225600`, and `between 1767225600 1769903999` tells of the documents of a month.
//!
//! IMAGE is the path of a file that exists; a new device is a file of zeros. Where IMAGE is `-`, the device is one blank
//! cell in memory, which suffices for `replay` and `exercise`: these leave the device alone, and work on one of their own.
//! No other IMAGE begins with a hyphen.
//!
//! A `copy` has the path of a second file behind it, the target, which is another one than IMAGE.
//!
//! While `format`, `audit` and `copy` read a file from end to end, a line on standard error says how many of its bytes
//! are read, where that is a terminal; then, of an `audit` and a `copy`, how many of the checks of slots are made; and of
//! a `copy` how many documents are copied.
//!
//! One program at a time works on a file: the second waits, from its first look at the file on, until the first has
//! ended. Where standard input, output or error is closed, the file does not take its place.
//!
//! Where the command is not done, one line on standard error says why, and the status tells it too: 0 is done, 1 is
//! words that are no command, 5 a file that cannot be opened, and every other is that of `run`'s refusal.
#![tactic(auto)]

use host_files::HostCalls;
use host_ports::{StdSink, StdSource};
use program::carry_out;
use program_host::{Fault, SystemFiles, words};
use std::io::{self, Stderr};
use std::process::ExitCode;
use std::rt::{Env, Files};

fn main(rt: HostRuntime) -> ExitCode {
    match begin(&rt, rt.stderr()) {
        Ok(()) => ExitCode::SUCCESS,
        Err(fault) => {
            // Where the line cannot be shown, the status still tells.
            let _ = eprintln!(rt; "{fault}");
            ExitCode::from(fault.status())
        }
    }
}

/// Carries out what the program's words ask for, with standard input and standard output.
fn begin(
    rt: &(impl Env + Files<File: HostCalls> + Input + Print + AllocGlobal),
    standard_error: Stderr,
) -> Result<(), Fault> {
    let words = words(rt)?;
    let mut source = StdSource::new(rt.reader());
    let mut sink = StdSink::new(io::writer(rt));
    let mut files = SystemFiles::new(rt, standard_error);
    carry_out(
        rt.alloc(),
        &mut files,
        words,
        &mut source,
        &mut sink,
        standard_error,
    )
}
