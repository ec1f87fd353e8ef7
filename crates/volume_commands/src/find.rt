//! The command `find`.
ghost use Rattle.std.specs.Prelude.{◌≡◌, ◌≤◌, length, map, IfOk};
ghost use Rattle.std.specs.String.{string_bytes};
ghost use Rattle.volume_commands.specs.Finding.{DoesFind, TermsEnd, find_text};
ghost use Rattle.volume_commands.specs.Ports.{ports_of};
ghost use Rattle.volume_commands.specs.Ruling.{AsksRule};
ghost use Rattle.command_line.specs.declared.words.TheConstants.{MAX_QUERY_WORDS};

use crate::outcome::Outcome;
use cell_types::{NoMemory, Refusal, memory};
use command_line::{push_count_line, push_document_line, put_text};
use commit_record::volume_of;
use host_ports::{Sink, Source};
use record_query::{Match, find};
use std::alloc::Global;
use volume_meaning::{WordRule, rule_of};
use word_reader::{Term, WordFault, single_term};
use worm_device::Device;

/// Searches the documents for the words, 8 at most, and puts out which have them all. The words are read by the
/// volume's rule, and the text is made before its first byte goes out.
pub fn find_documents<D: Device, S: Source, K: Sink>(
    alloc: Global,
    words: &[String],
    device: &mut D,
    source: &mut S,
    sink: &mut K,
) -> Outcome
    requires some { 1 ≤ length words.now }
    requires most { length words.now ≤ MAX_QUERY_WORDS }
    ensures { DoesFind (map string_bytes words.now)
        (ports_of (D.state device.old) (S.state source.old) (K.state sink.old))
        (ports_of (D.state device.new) (S.state source.new) (K.state sink.new)) result }
{
    let rule = rule_on(device)?;
    let terms = terms_of(alloc, words, rule)?;
    let matches = find(alloc, device, &terms)?;
    let text = text_of(alloc, &matches)?;
    put_text(sink, &text)?;
    Ok(())
}

/// The rule of words of the volume on the device, which cell 0 tells.
fn rule_on<D: Device>(device: &mut D) -> Result<WordRule, Refusal>
    ensures { AsksRule (D.state device.old) (D.state device.new) result }
{
    let found = device.read(0)?;
    let volume = volume_of(found, device.cells())?;
    Ok(rule_of(volume.version))
}

/// The terms of the words by this rule, each once. `BadWord` names the first word, from 1, that does not hold exactly
/// one.
fn terms_of(alloc: Global, words: &[String], rule: WordRule) -> Result<Vec<Term>, Refusal>
    requires { length words.now ≤ MAX_QUERY_WORDS }
    ensures { TermsEnd rule (map string_bytes words.now) result }
{
    let mut terms: Vec<Term> = Vec::new(alloc);
    let mut number = 0;
    for word in words {
        number += 1;
        let term = match single_term(alloc, word.as_bytes(), rule) {
            Ok(term) => term,
            Err(WordFault::BadWord) => return Err(Refusal::BadWord(number)),
            Err(WordFault::NoMemory(lack)) => return Err(Refusal::from(lack)),
        };
        if terms.iter().all(|other| other.bytes() != term.bytes()) {
            memory::push(&mut terms, term)?;
        }
    }
    Ok(terms)
}

/// The text that tells of the matches.
fn text_of(alloc: Global, matches: &[Match]) -> Result<Vec<u8>, NoMemory>
    ensures { IfOk result (λ text. text.items ≡ find_text matches.now) }
{
    let mut text = Vec::new(alloc);
    for found in matches {
        push_document_line(&mut text, found.slot, found.identifier.bytes(), found.bytes)?;
    }
    push_count_line(&mut text, matches.len())?;
    Ok(text)
}
