//! A command whose device is one blank cell in memory.
ghost use Rattle.std.specs.Prelude.{map};
ghost use Rattle.std.specs.String.{string_bytes};
ghost use Rattle.program.specs.InMemory.{WorksInMemory};

use cell_types::Refusal;
use host_ports::{Sink, Source};
use program_host::Fault;
use record_top::run;
use std::alloc::Global;
use worm_memory::MemoryDevice;

/// Carries out a command over one blank cell in memory. No file of the host is opened.
pub(crate) fn work_in_memory<S: Source, K: Sink>(
    alloc: Global,
    words: &[String],
    source: &mut S,
    sink: &mut K,
) -> Result<(), Fault>
    ensures { WorksInMemory (map string_bytes words.now)
        (S.state source.old) (S.state source.new) (K.state sink.old) (K.state sink.new) result }
{
    let mut device = match MemoryDevice::new(alloc, 1) {
        Ok(device) => device,
        Err(lack) => return Err(Fault::from(Refusal::from(lack))),
    };
    match run(alloc, words, &mut device, source, sink) {
        Ok(()) => Ok(()),
        Err(refusal) => Err(Fault::from(refusal)),
    }
}
