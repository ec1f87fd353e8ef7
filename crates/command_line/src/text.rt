//! Lines of a text, and a text put into a sink whole.
ghost use Rattle.std.specs.Prelude.{◌≡◌, ◌≤◌, ◌++◌, ⊤, length, OnOk, OnErr};
ghost use Rattle.cell_types.specs.declared.refusal.Refusal.TheVariants.{SinkFault};
ghost use Rattle.host_ports.specs.Sinks.{Gets, PutsPart};
ghost use Rattle.command_line.specs.Lines.{count_line, document_line, slot_line};

use arrayvec::ArrayString;
use cell_types::{NoMemory, Refusal, memory};
use host_ports::{Failed, Sink, put_all};
use itoa::Buffer;

/// How many bytes a line may have that tells of a slot.
const LINE_BYTES: usize = 64;

/// A call of the sink failed.
#[derive(Clone, Copy)]
pub struct SinkFailed;

impl From<Failed> for SinkFailed {
    ghost from_gives = { λ _ _. ⊤ };

    fn from(_: Failed) -> SinkFailed {
        SinkFailed
    }
}

impl From<SinkFailed> for Refusal {
    ghost from_gives = { λ _ refusal. refusal ≡ SinkFault };

    fn from(_: SinkFailed) -> Refusal {
        Refusal::SinkFault
    }
}

/// Puts the text behind what the sink holds. Where the sink fails, it may have got some first bytes of the text.
pub fn put_text<K: Sink>(sink: &mut K, text: &[u8]) -> Result<(), SinkFailed>
    ensures whole { OnOk result (Gets (K.state sink.old).held (K.state sink.new).held text.now) }
    ensures part { OnErr result (PutsPart text.now (K.state sink.old) (K.state sink.new)) }
{
    put_all(sink, text)?;
    Ok(())
}

/// Puts out a line that tells of a slot: its number, with these words before and behind it. It is made in place,
/// without memory.
pub fn put_slot_line<K: Sink>(
    sink: &mut K,
    before: &str,
    slot: u32,
    after: &str,
) -> Result<(), SinkFailed>
    requires before { length before.now ≤ 13 }
    requires after { length after.now ≤ 11 }
    ensures whole { OnOk result (Gets (K.state sink.old).held (K.state sink.new).held
        (slot_line before.now slot after.now)) }
    ensures part { OnErr result (PutsPart (slot_line before.now slot after.now) (K.state sink.old) (K.state sink.new)) }
{
    let mut digits = Buffer::new();
    let mut line = ArrayString::<LINE_BYTES>::new();
    line.push_str(before);
    line.push_str(digits.format(slot));
    line.push_str(after);
    put_text(sink, line.as_bytes())
}

/// Puts the line that tells of a document behind the text: its slot, its identifier, and how many bytes its body has.
pub fn push_document_line(
    text: &mut Vec<u8>,
    slot: u32,
    identifier: &[u8],
    bytes: u32,
) -> Result<(), NoMemory>
    ensures { OnOk result (text.new.items ≡ text.old.items ++ document_line slot identifier.now bytes) }
{
    let mut digits = Buffer::new();
    memory::extend_from_slice(text, digits.format(slot).as_bytes())?;
    memory::extend_from_slice(text, b" ")?;
    memory::extend_from_slice(text, identifier)?;
    memory::extend_from_slice(text, b" ")?;
    memory::extend_from_slice(text, digits.format(bytes).as_bytes())?;
    memory::extend_from_slice(text, b"\n")
}

/// Puts the line that says how many were found behind the text.
pub fn push_count_line(text: &mut Vec<u8>, count: usize) -> Result<(), NoMemory>
    ensures { OnOk result (text.new.items ≡ text.old.items ++ count_line count) }
{
    let mut digits = Buffer::new();
    memory::extend_from_slice(text, digits.format(count).as_bytes())?;
    memory::extend_from_slice(text, b" found\n")
}
