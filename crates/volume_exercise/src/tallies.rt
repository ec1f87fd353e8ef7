//! What the replies to the events of the exercise come to.
ghost use Rattle.std.specs.Prelude.{◌≡◌, ◌+◌, ◌*◌, ◌≤◌, ◌<◌, IfOk, length, string_bytes};
ghost use Rattle.std.specs.List.{count_by, sum_by};
ghost use Rattle.volume_exercise.specs.Tallies.{counted_text, first_refusal, is_acknowledged, tally_lines, matches_in, returned, returned_from, sound_line};
ghost use Rattle.command_line.specs.declared.words.TheConstants.{MAX_DOCUMENTS};

use crate::documents::body;
use crate::limits::DISTINCT_WORDS;
use cell_types::{NoMemory, Refusal, memory};
use script_replies::Reply;
use std::alloc::Global;

/// What the replies come to.
#[derive(Clone, Copy)]
struct Tally {
    /// How many documents were acknowledged.
    acknowledged: usize,
    /// How many documents the finds of single words found.
    single: u128,
    /// How many documents the finds of pairs found.
    pairs: u128,
    /// How many bodies came back.
    looked_up: u32,
}

/// Why the first event that was refused was, if one was.
pub fn first_refusal(replies: &[Reply]) -> Option<Refusal>
    ensures { result ≡ first_refusal replies.now }
{
    for reply in replies {
        if let Reply::Refused(refusal) = reply {
            return Some(*refusal);
        }
    }
    None
}

/// The lines of the exercise with so many documents, by the replies to all of its events.
pub fn text_of(alloc: Global, documents: u32, replies: &[Reply]) -> Result<String, NoMemory>
    requires few { documents ≤ MAX_DOCUMENTS }
    requires all { length replies.now ≡ 2 * documents + 401 }
    ensures { IfOk result (λ text. string_bytes text ≡ counted_text documents replies.now) }
{
    let count = documents as usize;
    let words = DISTINCT_WORDS as usize;
    let singles = 1 + count;
    let pairs = singles + words;
    let look_ups = pairs + (words - 1);
    let tally = Tally {
        acknowledged: acknowledged(&replies[1..singles]),
        single: found(&replies[singles..pairs]),
        pairs: found(&replies[pairs..look_ups]),
        looked_up: returned_all(alloc, &replies[look_ups..look_ups + count])?,
    };
    lines(alloc, documents, &tally, sound_line(replies))
}

/// The lines of the exercise with so many documents.
fn lines(alloc: Global, documents: u32, tally: &Tally, sound: &str) -> Result<String, NoMemory>
    ensures { IfOk result (λ text. string_bytes text ≡ tally_lines documents tally.now.acknowledged tally.now.single
        tally.now.pairs tally.now.looked_up sound.now) }
{
    let Tally {
        acknowledged,
        single,
        pairs,
        looked_up,
    } = tally;
    memory::format(
        alloc,
        format_args!(
            "documents {documents}\nacknowledged {acknowledged}\nsingle {single}\npairs {pairs}\nlooked up {looked_up}\n{sound}"
        ),
    )
}

/// How many documents were acknowledged.
fn acknowledged(replies: &[Reply]) -> usize
    ensures { result ≡ count_by is_acknowledged replies.now }
{
    let mut count = 0;
    for reply in replies {
        if is_acknowledged(reply) {
            count += 1;
        }
    }
    count
}

/// Whether a document was acknowledged.
fn is_acknowledged(reply: &Reply) -> bool
    ensures { result ≡ is_acknowledged reply.now }
{
    match reply {
        Reply::Acknowledged(_) => true,
        _ => false,
    }
}

/// How many documents all of them found.
fn found(replies: &[Reply]) -> u128
    ensures { result ≡ sum_by matches_in replies.now }
{
    let mut total = 0;
    for reply in replies {
        total += matches_in(reply) as u128;
    }
    total
}

/// How many documents one found.
fn matches_in(reply: &Reply) -> usize
    ensures { result ≡ matches_in reply.now }
{
    match reply {
        Reply::Found(matches) => matches.as_slice().len(),
        _ => 0,
    }
}

/// How many bodies came back with their length.
fn returned_all(alloc: Global, replies: &[Reply]) -> Result<u32, NoMemory>
    requires { length replies.now ≤ MAX_DOCUMENTS }
    ensures { IfOk result (λ count. count ≡ returned_from 0 replies.now) }
{
    let mut count = 0;
    let mut document = 0;
    for reply in replies {
        count += returned(alloc, document, reply)?;
        document += 1;
    }
    Ok(count)
}

/// 1 where the body of the document came back with its length, and else 0.
fn returned(alloc: Global, document: u32, reply: &Reply) -> Result<u32, NoMemory>
    requires { document < MAX_DOCUMENTS }
    ensures { IfOk result (λ count. count ≡ returned document reply.now) }
{
    let Reply::Body { body: found, .. } = reply else {
        return Ok(0);
    };
    let stored = body(alloc, document)?;
    if found.bytes().len() != stored.len() {
        return Ok(0);
    }
    Ok(1)
}

/// The line of the audit, where it said that no rule is broken.
fn sound_line(replies: &[Reply]) -> &'static str
    ensures { result.now ≡ sound_line replies.now }
{
    for reply in replies {
        if let Reply::Sound(_) = reply {
            return "sound\n";
        }
    }
    ""
}
