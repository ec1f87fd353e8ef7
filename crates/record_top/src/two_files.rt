//! The call that the program makes: the same over two files.
ghost use Rattle.std.specs.Prelude.{map};
ghost use Rattle.std.specs.String.{string_bytes};
ghost use Rattle.host_files.specs.Crashes.{CrashesAreSeen};
ghost use Rattle.host_files.specs.Over.{file_below, state_over};
ghost use Rattle.record_top.specs.Copying.{RunsCopy};

use crate::copying::run_two_metered;
use cell_types::CopyRefusal;
use host_files::{FileDevice, HostFile, crashes_are_seen};
use host_ports::{Meter, Sink};
use std::alloc::Global;

/// Copies the volume in one file to another, as `run_two` does over two devices, and shows how many documents are
/// copied, of how many.
pub fn run_two_over_files<F: HostFile, G: HostFile, K: Sink, M: Meter>(
    alloc: Global,
    words: &[String],
    from: &mut FileDevice<F>,
    to: &mut FileDevice<G>,
    sink: &mut K,
    meter: &mut M,
) -> Result<(), CopyRefusal>
    // All that `run_two` says, over the devices that show the files.
    ensures runs { RunsCopy (map string_bytes words.now) (state_over from.old) (state_over from.new) (state_over to.old)
        (state_over to.new) (K.state sink.old) (K.state sink.new) result }

    // What a crash leaves of either file, at any moment, is a crash of its device, of which the clause above speaks.
    ensures from_crashes { CrashesAreSeen (state_over from.new) (file_below from.new).told }
    ensures to_crashes { CrashesAreSeen (state_over to.new) (file_below to.new).told }
{
    let outcome = run_two_metered(alloc, words, from, to, sink, meter);
    crashes_are_seen(from);
    crashes_are_seen(to);
    outcome
}
