//! What a command over a file does to the bytes of the file, over any host whose files tell theirs.
//!
//! `run` speaks of the cells of a device, and a device over a file shows the file's bytes as cells. So where
//! `ingest a` was done with the body `hello world`, on the file of a volume of 1,000 cells,
//!
//!     bytes 9,280 to 9,295     1d 01 61 `hello world` 00 00
//!
//! are in the bytes that a sync made sure, with the four cells that say that it stands and the three of its index; and
//! whatever a crash leaves of the file from then on, they are there. So is each document that stood before, and the
//! index still leads to each that it led to.
//!
//! Besides, what `run` promises is said again over the device that shows the file, so that the program's own call has
//! it, too: what each command does and puts out, when it refuses, and what a crash leaves.
//!
//! `specs/Files.antt` says what is kept.
ghost use Rattle.std.specs.Prelude.{ℕ, List, Option, map};
ghost use Rattle.std.specs.String.{string_bytes};
ghost use Rattle.command_line.specs.Asking.{AsksToIngest};
ghost use Rattle.record_top.specs.Files.{KeepsAllOfFile, KeepsIn, WhereTold, file_ports};
ghost use Rattle.host_files.specs.Crashes.{CrashesAreSeen};
ghost use Rattle.host_files.specs.Over.{file_below, state_over};
ghost use Rattle.record_top.specs.Runs.{Runs};
ghost use Rattle.volume_commands.specs.Ports.{ports_of};

use crate::Outcome;
use crate::command::run_metered;
use cell_types::Refusal;
use host_files::{FileDevice, HostFile, crashes_are_seen};
use host_ports::{Meter, Sink, Source};
use std::alloc::Global;

/// Carries out the command that the words ask for over a file, as `run` does over a device, and shows how far a long
/// one is.
pub fn run_over_file<F: HostFile, S: Source, K: Sink, M: Meter>(
    alloc: Global,
    words: &[String],
    device: &mut FileDevice<F>,
    source: &mut S,
    sink: &mut K,
    meter: &mut M,
) -> Outcome
    // All that `run` says, over the device that shows the file.
    ensures runs { Runs (map string_bytes words.now)
        (ports_of (state_over device.old) (S.state source.old) (K.state sink.old))
        (ports_of (state_over device.new) (S.state source.new) (K.state sink.new)) result }

    // Where `ingest` has stored its document, which it has at Ok, the file keeps it with its stamp, and each that stood
    // at entry.
    ensures keeps { (id : List ℕ) (stamp : Option ℕ) → AsksToIngest (map string_bytes words.now) id stamp →
        KeepsIn (state_over device.new).cells id stamp
        (file_ports (file_below device.old).told (S.state source.old) (K.state sink.old))
        (file_ports (file_below device.new).told (S.state source.new) (K.state sink.new)) result }
    // Whatever the words are, and however it ends, the file keeps each document of the bytes that no crash could take
    // at entry.
    ensures stays { WhereTold (file_below device.old).told (file_below device.new).told
        (λ before after. KeepsAllOfFile (state_over device.new).cells before.now.sure after) }
    // What a crash leaves of the file, at any moment of the command, is a crash of the device, of which `run` speaks.
    ensures crashes { CrashesAreSeen (state_over device.new) (file_below device.new).told }
{
    let outcome = run_metered(alloc, words, device, source, sink, meter);
    crashes_are_seen(device);
    outcome
}
