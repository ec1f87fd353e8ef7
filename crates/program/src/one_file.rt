//! A command over one file.
ghost use Rattle.std.specs.Prelude.{◌≡◌, map};
ghost use Rattle.std.specs.String.{string_bytes};
ghost use Rattle.host_files.specs.Over.{state_over};
ghost use Rattle.program.specs.OneFile.{RanOver, WorksOver, no_text, world_of};

use crate::answering::answer_of;
use cell_types::Refusal;
use host_files::{FileDevice, HostFile, MeteredFile, Pages};
use host_ports::{Gathered, Sink, Source, put_all};
use program_host::{Fault, FileHost, Terminal};
use record_top::{Outcome, run_over_file};
use std::alloc::Global;
use std::io::Stderr;

/// Room for the line of an ingest, which no lack of memory may keep back once its document is stored.
pub(crate) const LINE_BYTES: usize = 64;

/// Carries out a command over the file that this path leads to, lets go of the file, and shows what the command has put
/// out.
pub(crate) fn work_on_file<H: FileHost, S: Source, K: Sink>(
    alloc: Global,
    host: &mut H,
    path: &str,
    words: &[String],
    source: &mut S,
    sink: &mut K,
    standard_error: Stderr,
) -> Result<(), Fault>
    ensures { WorksOver H.opened H.File.state path.now (map string_bytes words.now)
        (world_of host.old (S.state source.old) (K.state sink.old))
        (world_of host.new (S.state source.new) (K.state sink.new)) result }
{
    let pages = match Pages::new(alloc) {
        Ok(pages) => pages,
        Err(lack) => return Err(Fault::from(Refusal::from(lack))),
    };
    let mut text = match Gathered::with_room(alloc, LINE_BYTES) {
        Ok(text) => text,
        Err(lack) => return Err(Fault::from(Refusal::from(lack))),
    };
    let Some(file) = host.open(path) else {
        return Err(Fault::Image);
    };
    let file = MeteredFile::new(file, meter_of(words, standard_error));
    let Ok(device) = FileDevice::over(file, pages) else {
        return Err(Fault::Image);
    };
    let done = run_over(alloc, words, device, source, &mut text, standard_error);
    let shown = put_all(sink, text.bytes());
    answer_of(done, shown)
}

/// Carries out a command over this device, whose file is let go then.
fn run_over<F: HostFile + Drop, S: Source>(
    alloc: Global,
    words: &[String],
    mut device: FileDevice<MeteredFile<F, Terminal>>,
    source: &mut S,
    text: &mut Gathered,
    standard_error: Stderr,
) -> Outcome
    requires { text.old ≡ no_text }
    ensures { RanOver F.state (map string_bytes words.now) (state_over device)
        (S.state source.old) (S.state source.new) text.new result }
{
    let mut meter = Terminal::new(standard_error);
    run_over_file(alloc, words, &mut device, source, text, &mut meter)
}

/// What shows how far the reads of a file have come, where the command looks at each cell once, in rising order.
fn meter_of(words: &[String], standard_error: Stderr) -> Terminal {
    let reads_all = words
        .first()
        .is_some_and(|word| matches!(word.as_str(), "format" | "audit"));
    if reads_all {
        Terminal::new(standard_error)
    } else {
        Terminal::off()
    }
}
