//! The command `between`.
ghost use Rattle.std.specs.Prelude.{◌≡◌, ◌≤◌, ◌++◌, IfOk, OnOk};
ghost use Rattle.volume_commands.specs.Ports.{ports_of};
ghost use Rattle.volume_commands.specs.Spanning.{DoesBetween, line_start, span_text, stamped_line};

use crate::outcome::Outcome;
use cell_types::{NoMemory, memory};
use command_line::{push_count_line, put_text};
use host_ports::{Sink, Source};
use itoa::Buffer;
use std::alloc::Global;
use time_index::{TimeMatch, between};
use worm_device::Device;

/// Searches the documents whose stamps lie from one time to another, in seconds, and puts out which they are. The text
/// is made before its first byte goes out.
pub fn find_between<D: Device, S: Source, K: Sink>(
    alloc: Global,
    from: u32,
    to: u32,
    device: &mut D,
    source: &mut S,
    sink: &mut K,
) -> Outcome
    requires { from ≤ to }
    ensures { DoesBetween from to (ports_of (D.state device.old) (S.state source.old) (K.state sink.old))
        (ports_of (D.state device.new) (S.state source.new) (K.state sink.new)) result }
{
    let matches = between(alloc, device, from, to)?;
    let text = text_of(alloc, &matches)?;
    put_text(sink, &text)?;
    Ok(())
}

/// The text that tells of the matches.
fn text_of(alloc: Global, matches: &[TimeMatch]) -> Result<Vec<u8>, NoMemory>
    ensures { IfOk result (λ text. text.items ≡ span_text matches.now) }
{
    let mut text = Vec::new(alloc);
    for found in matches {
        push_stamped_line(
            &mut text,
            found.slot,
            found.identifier.bytes(),
            found.seconds,
            found.bytes,
        )?;
    }
    push_count_line(&mut text, matches.len())?;
    Ok(text)
}

/// Puts the line that tells of a document with its stamp behind the text.
fn push_stamped_line(
    text: &mut Vec<u8>,
    slot: u32,
    identifier: &[u8],
    seconds: u32,
    bytes: u32,
) -> Result<(), NoMemory>
    ensures { OnOk result (text.new.items ≡ text.old.items ++ stamped_line slot identifier.now seconds bytes) }
{
    push_line_start(text, slot, identifier)?;
    let mut digits = Buffer::new();
    memory::extend_from_slice(text, digits.format(seconds).as_bytes())?;
    memory::extend_from_slice(text, b" ")?;
    memory::extend_from_slice(text, digits.format(bytes).as_bytes())?;
    memory::extend_from_slice(text, b"\n")
}

/// Puts what the line of a document begins with behind the text.
fn push_line_start(text: &mut Vec<u8>, slot: u32, identifier: &[u8]) -> Result<(), NoMemory>
    ensures { OnOk result (text.new.items ≡ text.old.items ++ line_start slot identifier.now) }
{
    let mut digits = Buffer::new();
    memory::extend_from_slice(text, digits.format(slot).as_bytes())?;
    memory::extend_from_slice(text, b" ")?;
    memory::extend_from_slice(text, identifier)?;
    memory::extend_from_slice(text, b" ")
}
