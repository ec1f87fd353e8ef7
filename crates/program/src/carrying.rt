//! A command, carried out by the words that ask for it.
ghost use Rattle.std.specs.Prelude.{map};
ghost use Rattle.std.specs.String.{string_bytes};
ghost use Rattle.program.specs.Carrying.{WorksByWords};
ghost use Rattle.program.specs.OneFile.{world_of};

use crate::copying::copy;
use crate::in_memory::work_in_memory;
use crate::one_file::work_on_file;
use crate::words::{asks_to_copy, is_hyphened};
use host_ports::{Sink, Source};
use program_host::{Fault, FileHost};
use std::alloc::Global;
use std::io::Stderr;

/// Opens the device that the first word names, and carries out the command that the others ask for. How far it is goes
/// to standard error, where that is a terminal. What a command over a file puts out goes out once the file is let go: who
/// reads it slowly, or calls the program again meanwhile, holds nobody up. `specs/Carrying.antt` says what is promised.
pub fn carry_out<H: FileHost, S: Source, K: Sink>(
    alloc: Global,
    host: &mut H,
    words: Vec<String>,
    source: &mut S,
    sink: &mut K,
    standard_error: Stderr,
) -> Result<(), Fault>
    ensures { WorksByWords H.opened H.numbered H.held H.File.state (map string_bytes words.items)
        (world_of host.old (S.state source.old) (K.state sink.old))
        (world_of host.new (S.state source.new) (K.state sink.new)) result }
{
    let Some((image, rest)) = words.split_first() else {
        return Err(Fault::Usage);
    };
    if asks_to_copy(rest) {
        return copy(alloc, host, words, sink, standard_error);
    }
    if image.as_str() == "-" {
        return work_in_memory(alloc, rest, source, sink);
    }
    if is_hyphened(image.as_bytes()) {
        return Err(Fault::Usage);
    }
    work_on_file(
        alloc,
        host,
        image.as_str(),
        rest,
        source,
        sink,
        standard_error,
    )
}
