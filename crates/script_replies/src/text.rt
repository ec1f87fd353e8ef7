//! The text of replies.
ghost use Rattle.std.specs.Prelude.{◌≡◌, ◌++◌, codes, decimal, IfOk, string_bytes};
ghost use Rattle.hex.specs.Hex.{encode_lower};
ghost use Rattle.script_replies.specs.Lines.{body_words, crash_words, evidence_words, refusal_words, replies_text, reply_line, reply_words, report_words, slots_words, step_words};

use crate::Reply;
use cell_types::{Cell, Evidence, NoMemory, Refusal, memory};
use document_store::Text;
use record_query::Match;
use recovery_engine::Step;
use std::alloc::Global;
use volume_audit::AuditReport;
use worm_memory::Crash;

/// The text that answers the events of a script: a line for each reply, in order.
pub fn text_of_replies(alloc: Global, replies: &[Reply]) -> Result<String, NoMemory>
    ensures { IfOk result (λ text. string_bytes text ≡ replies_text replies.now) }
{
    let text = lines(alloc, replies)?;
    Ok(text)
}

/// A line for each reply.
fn lines(alloc: Global, replies: &[Reply]) -> Result<String, NoMemory>
    ensures { IfOk result (λ text. string_bytes text ≡ replies_text replies.now) }
{
    let mut text = String::new(alloc);
    let mut number = 0u64;
    for reply in replies {
        number += 1;
        let line = line(alloc, number, reply)?;
        memory::push_str(&mut text, line.as_str())?;
    }
    Ok(text)
}

/// The line of the reply to the event of this number.
fn line(alloc: Global, number: u64, reply: &Reply) -> Result<String, NoMemory>
    ensures { IfOk result (λ text. string_bytes text ≡ reply_line number reply.now) }
{
    let status = reply.status();
    let words = words(alloc, reply)?;
    memory::format(alloc, format_args!("{number} {status} {words}\n"))
}

/// What the event is answered.
fn words(alloc: Global, reply: &Reply) -> Result<String, NoMemory>
    ensures { IfOk result (λ text. string_bytes text ≡ reply_words reply.now) }
{
    match reply {
        Reply::Formatted => memory::from_str(alloc, "formatted"),
        Reply::Acknowledged(slot) => acknowledged(alloc, *slot),
        Reply::Found(matches) => found(alloc, matches.as_slice()),
        Reply::Body { slot, body } => body_of(alloc, *slot, body),
        Reply::Sound(report) => sound(alloc, report),
        Reply::Settled(step) => settled(alloc, *step),
        Reply::ForeignDone => memory::from_str(alloc, "done"),
        Reply::ForeignTaken(cell) => taken(alloc, *cell),
        Reply::Crashed(crash) => crashed(alloc, crash),
        Reply::Refused(refusal) => refused(alloc, refusal),
    }
}

/// The document stands in this slot.
fn acknowledged(alloc: Global, slot: u32) -> Result<String, NoMemory>
    ensures { IfOk result (λ text. string_bytes text ≡ codes "acknowledged " ++ decimal slot) }
{
    memory::format(alloc, format_args!("acknowledged {slot}"))
}

/// The slots of what was found.
fn found(alloc: Global, matches: &[Match]) -> Result<String, NoMemory>
    ensures { IfOk result (λ text. string_bytes text ≡ codes "found" ++ slots_words matches.now) }
{
    let mut text = memory::from_str(alloc, "found")?;
    for one in matches {
        let slot = one.slot;
        let next = memory::format(alloc, format_args!(" {slot}"))?;
        memory::push_str(&mut text, next.as_str())?;
    }
    Ok(text)
}

/// The slot and the length of a body.
fn body_of(alloc: Global, slot: u32, body: &Text) -> Result<String, NoMemory>
    ensures { IfOk result (λ text. string_bytes text ≡ body_words slot body.now) }
{
    let bytes = body.bytes().len();
    memory::format(alloc, format_args!("slot {slot}, {bytes} bytes"))
}

/// The numbers of a sound volume.
fn sound(alloc: Global, report: &AuditReport) -> Result<String, NoMemory>
    ensures { IfOk result (λ text. string_bytes text ≡ report_words report.now) }
{
    let (done, abandoned, written) = (report.done, report.abandoned, report.written);
    memory::format(
        alloc,
        format_args!("sound: {done} done, {abandoned} abandoned, {written} written cells"),
    )
}

/// What settling did.
fn settled(alloc: Global, step: Step) -> Result<String, NoMemory>
    ensures { IfOk result (λ text. string_bytes text ≡ step_words step) }
{
    match step {
        Step::Nothing => memory::from_str(alloc, "nothing to settle"),
        Step::Abandoned(slot) => memory::format(alloc, format_args!("slot {slot} abandoned")),
        Step::Completed(slot) => memory::format(alloc, format_args!("slot {slot} completed")),
    }
}

/// The value that stood in a cell.
fn taken(alloc: Global, cell: Cell) -> Result<String, NoMemory>
    ensures { IfOk result (λ text. string_bytes text ≡ codes "taken " ++ encode_lower cell) }
{
    let digits = digits(alloc, cell)?;
    memory::format(alloc, format_args!("taken {digits}"))
}

/// How many cells a crash could take, and how many it left.
fn crashed(alloc: Global, crash: &Crash) -> Result<String, NoMemory>
    ensures { IfOk result (λ text. string_bytes text ≡ crash_words crash.now) }
{
    let (kept, unsure) = (crash.kept, crash.unsure);
    memory::format(alloc, format_args!("kept {kept} of {unsure}"))
}

/// Why there is no answer.
fn refused(alloc: Global, refusal: &Refusal) -> Result<String, NoMemory>
    ensures { IfOk result (λ text. string_bytes text ≡ refusal_words refusal.now) }
{
    match refusal {
        Refusal::Tampered(evidence) => tampered(alloc, *evidence),
        _ => memory::from_str(alloc, "refused"),
    }
}

/// The evidence of a tampering.
fn tampered(alloc: Global, evidence: Evidence) -> Result<String, NoMemory>
    ensures { IfOk result (λ text. string_bytes text ≡ evidence_words evidence) }
{
    let digits = digits(alloc, evidence.found)?;
    let (rule, cell) = (evidence.rule, evidence.cell);
    memory::format(alloc, format_args!("tampered {rule} {cell} {digits}"))
}

/// The 32 hexadecimal digits of a cell.
fn digits(alloc: Global, cell: Cell) -> Result<String, NoMemory>
    ensures { IfOk result (λ text. string_bytes text ≡ encode_lower cell) }
{
    let bytes = cell.bytes();
    let digits = hex::encode(alloc, &bytes).map_err(|_| memory::lacked_elsewhere())?;
    Ok(digits)
}
