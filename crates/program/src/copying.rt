//! A copy of the volume in one file to another.
ghost use Rattle.std.specs.Prelude.{◌≡◌, map};
ghost use Rattle.std.specs.String.{string_bytes};
ghost use Rattle.host_files.specs.Over.{state_over};
ghost use Rattle.program.specs.OneFile.{no_text};
ghost use Rattle.program.specs.TwoFiles.{AreHeld, CopiesBy, RanOnto, WorksOnto};

use crate::answering::answer_of_copy;
use crate::one_file::LINE_BYTES;
use crate::words::{is_first, is_hyphened, is_same, take_target};
use cell_types::{CopyRefusal, Refusal};
use host_files::{FileDevice, HostFile, MeteredFile, Pages};
use host_ports::{Gathered, Sink, put_all};
use program_host::{Fault, FileHost, FileNumber, Terminal};
use record_top::run_two_over_files;
use std::alloc::Global;
use std::io::Stderr;

/// Copies the volume in one file to another, the target, whose path stands behind the word `copy`.
pub(crate) fn copy<H: FileHost, K: Sink>(
    alloc: Global,
    host: &mut H,
    mut words: Vec<String>,
    sink: &mut K,
    standard_error: Stderr,
) -> Result<(), Fault>
    ensures { CopiesBy H.opened H.numbered H.held H.File.state (map string_bytes words.items) host.old host.new
        (K.state sink.old) (K.state sink.new) result }
{
    let Some(target) = take_target(&mut words) else {
        return Err(Fault::Usage);
    };
    let Some((image, rest)) = words.split_first() else {
        unreachable!();
    };
    if is_hyphened(image.as_bytes()) {
        return Err(Fault::Usage);
    }
    if is_hyphened(target.as_bytes()) {
        return Err(Fault::Usage);
    }
    copy_onto(
        alloc,
        host,
        image.as_str(),
        target.as_str(),
        rest,
        sink,
        standard_error,
    )
}

/// Copies the volume in the file that a path leads to onto the one of another path, lets go of both, and shows what the
/// copy has put out.
fn copy_onto<H: FileHost, K: Sink>(
    alloc: Global,
    host: &mut H,
    image: &str,
    target: &str,
    words: &[String],
    sink: &mut K,
    standard_error: Stderr,
) -> Result<(), Fault>
    ensures { WorksOnto H.opened H.numbered H.held H.File.state image.now target.now (map string_bytes words.now)
        host.old host.new (K.state sink.old) (K.state sink.new) result }
{
    let from_pages = match Pages::new(alloc) {
        Ok(pages) => pages,
        Err(lack) => return Err(Fault::from(Refusal::from(lack))),
    };
    let to_pages = match Pages::new(alloc) {
        Ok(pages) => pages,
        Err(lack) => return Err(Fault::from(Refusal::from(lack))),
    };
    let mut text = match Gathered::with_room(alloc, LINE_BYTES) {
        Ok(text) => text,
        Err(lack) => return Err(Fault::from(Refusal::from(lack))),
    };
    let one = host.number_of(image);
    let other = host.number_of(target);
    if is_same(one, other) {
        // The second device would wait for the first to let go of the file.
        return Err(Fault::SameFile);
    }
    let Some(mut from) = host.open(image) else {
        return Err(Fault::Image);
    };
    let Some(mut to) = host.open(target) else {
        return Err(Fault::Image);
    };
    hold_in_order(host, one, other, &mut from, &mut to);
    // Each is read from end to end first: audited, or the target formatted.
    let from = MeteredFile::new(from, Terminal::new(standard_error));
    let to = MeteredFile::new(to, Terminal::new(standard_error));
    let Ok(from) = FileDevice::over(from, from_pages) else {
        return Err(Fault::Image);
    };
    let Ok(to) = FileDevice::over(to, to_pages) else {
        return Err(Fault::Image);
    };
    let done = run_onto(alloc, words, from, to, &mut text, standard_error);
    let shown = put_all(sink, text.bytes());
    answer_of_copy(done, shown)
}

/// Holds both files, in the order that all keep to.
fn hold_in_order<H: FileHost>(
    host: &mut H,
    one: Option<FileNumber>,
    other: Option<FileNumber>,
    from: &mut H::File,
    to: &mut H::File,
)
    ensures held { AreHeld H.held one other from.old from.new to.old to.new host.old host.new }
    ensures from { H.File.state from.new ≡ H.File.state from.old }
    ensures to { H.File.state to.new ≡ H.File.state to.old }
{
    if is_first(one, other) {
        host.hold_both(from, to);
        return;
    }
    host.hold_both(to, from);
}

/// Copies from one device to another, whose files are let go then.
fn run_onto<F: HostFile + Drop>(
    alloc: Global,
    words: &[String],
    mut from: FileDevice<MeteredFile<F, Terminal>>,
    mut to: FileDevice<MeteredFile<F, Terminal>>,
    text: &mut Gathered,
    standard_error: Stderr,
) -> Result<(), CopyRefusal>
    requires { text.old ≡ no_text }
    ensures { RanOnto F.state (map string_bytes words.now) (state_over from) (state_over to) text.new result }
{
    let mut meter = Terminal::new(standard_error);
    run_two_over_files(alloc, words, &mut from, &mut to, text, &mut meter)
}
