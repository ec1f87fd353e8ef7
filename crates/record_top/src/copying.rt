//! The call that a program makes to copy a volume onto another device.
//!
//! Where slot 0 of the volume was given up and two documents stand behind it, onto a blank device:
//!
//!     copy 16 4       makes the target a volume of 16 slots and 4 lists, and      1 0
//!                     ingests both documents there: from slot 1 to slot 0,        2 1
//!                     and from slot 2 to slot 1                                   2 copied
//!
//! Run again, it copies nothing anew and puts out the same: a document that is found in the target has its line, too.
//! The text is made before its first byte goes out, so want of memory comes with nothing put out. The documents are in
//! the target by then, at a fault of the sink as well.
//!
//! Over two files, `run_two_over_files` says besides that what a crash leaves of a file is what it leaves of the device
//! that shows the file.
//!
//! `volume_copy` copies and says when each refusal comes; `specs/Copying.antt` says what the command does.
ghost use Rattle.std.specs.Prelude.{map};
ghost use Rattle.std.specs.String.{string_bytes};
ghost use Rattle.record_top.specs.Copying.{DoesCopy, RunsCopy};

use crate::copy_text::text_of;
use cell_types::CopyRefusal;
use command_line::{Numbers, numbers_behind, put_text};
use host_ports::{Meter, Silent, Sink};
use std::alloc::Global;
use volume_copy::copy_metered;
use worm_device::Device;

/// Copies a volume to another device, where the words are `copy` and the numbers of slots and lists that the target has
/// or is to have, and puts out in which slot each document was and in which it is. Or it refuses.
///
/// # Errors
///
/// `Usage` where the words are no copy; those of `copy`; `NoMemory` and `SinkFault` once all is copied.
pub fn run_two<D: Device, E: Device, K: Sink>(
    alloc: Global,
    words: &[String],
    from: &mut D,
    to: &mut E,
    sink: &mut K,
) -> Result<(), CopyRefusal>
    ensures { RunsCopy (map string_bytes words.now) (D.state from.old) (D.state from.new) (E.state to.old)
        (E.state to.new) (K.state sink.old) (K.state sink.new) result }
{
    run_two_metered(alloc, words, from, to, sink, &mut Silent)
}

/// The same, and shows how many documents are copied, of how many.
pub(crate) fn run_two_metered<D: Device, E: Device, K: Sink, M: Meter>(
    alloc: Global,
    words: &[String],
    from: &mut D,
    to: &mut E,
    sink: &mut K,
    meter: &mut M,
) -> Result<(), CopyRefusal>
    ensures { RunsCopy (map string_bytes words.now) (D.state from.old) (D.state from.new) (E.state to.old)
        (E.state to.new) (K.state sink.old) (K.state sink.new) result }
{
    let Some(numbers) = numbers_behind(words, "copy") else {
        return Err(CopyRefusal::Usage);
    };
    copy_volume(alloc, numbers, from, to, sink, meter)
}

/// Copies a volume to one of these numbers, and tells of it.
fn copy_volume<D: Device, E: Device, K: Sink, M: Meter>(
    alloc: Global,
    numbers: Numbers,
    from: &mut D,
    to: &mut E,
    sink: &mut K,
    meter: &mut M,
) -> Result<(), CopyRefusal>
    ensures { DoesCopy numbers.slots numbers.lists (D.state from.old) (D.state from.new) (E.state to.old)
        (E.state to.new) (K.state sink.old) (K.state sink.new) result }
{
    let moves = match copy_metered(alloc, from, to, numbers.slots, numbers.lists, meter) {
        Ok(moves) => moves,
        Err(refusal) => return Err(refusal),
    };
    let text = text_of(alloc, &moves)?;
    match put_text(sink, &text) {
        Ok(()) => Ok(()),
        Err(_) => Err(CopyRefusal::SinkFault),
    }
}
