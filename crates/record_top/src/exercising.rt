//! The command `exercise`.
ghost use Rattle.std.specs.Prelude.{◌≡◌, ◌≤◌};
ghost use Rattle.command_line.specs.declared.words.TheConstants.{MAX_DOCUMENTS};
ghost use Rattle.record_top.specs.Exercising.{DoesExercise};
ghost use Rattle.volume_commands.specs.Ports.{ports_of};
ghost use Rattle.volume_exercise.specs.Exercising.{ExerciseEnds, exercise_device};
ghost use Rattle.worm_memory.specs.Device.{memory_of};

use cell_types::Refusal;
use host_ports::{Sink, Source, put_all};
use hostile_replay::{acknowledged_are_returned, plain_is_done, replay, turns_are_marked};
use std::alloc::Global;
use volume_commands::Outcome;
use volume_exercise::{BASE_CELLS, CELLS_PER_DOCUMENT, exercise_events, first_refusal, text_of};
use worm_device::Device;
use worm_memory::{MemoryDevice, the_count_is_recorded};

/// Does the exercise with so many documents, on a device in memory of its own. The device that is handed in is left
/// alone.
pub fn exercise_volume<D: Device, S: Source, K: Sink>(
    alloc: Global,
    documents: u32,
    _device: &mut D,
    _source: &mut S,
    sink: &mut K,
) -> Outcome
    requires some { 1 ≤ documents }
    requires most { documents ≤ MAX_DOCUMENTS }
    ensures { DoesExercise documents
        (ports_of (D.state _device.old) (S.state _source.old) (K.state sink.old))
        (ports_of (D.state _device.new) (S.state _source.new) (K.state sink.new)) result }
{
    let mut device = MemoryDevice::new(alloc, BASE_CELLS + CELLS_PER_DOCUMENT * documents)?;
    exercise(alloc, documents, &mut device, sink)
}

/// Does the exercise with so many documents on this new device, and puts its lines into the sink. The text is made
/// before its first byte goes out.
pub fn exercise<K: Sink>(
    alloc: Global,
    documents: u32,
    device: &mut MemoryDevice,
    sink: &mut K,
) -> Result<(), Refusal>
    requires some { 1 ≤ documents }
    requires most { documents ≤ MAX_DOCUMENTS }
    requires new { memory_of device.old ≡ exercise_device documents }
    ensures { ExerciseEnds documents (memory_of device.old) (memory_of device.new) (K.state sink.old) (K.state sink.new)
        result }
{
    let events = exercise_events(alloc, documents)?;
    let replies = replay(alloc, &events, device)?;
    plain_is_done();
    acknowledged_are_returned();
    turns_are_marked();
    the_count_is_recorded();
    if let Some(refusal) = first_refusal(&replies) {
        return Err(refusal);
    }
    let text = text_of(alloc, documents, &replies)?;
    let Ok(()) = put_all(sink, text.as_bytes()) else {
        return Err(Refusal::SinkFault);
    };
    Ok(())
}
