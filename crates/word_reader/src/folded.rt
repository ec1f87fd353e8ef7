//! The words of bytes that are read as characters.
ghost use Rattle.std.specs.Prelude.{◌≡◌, ◌≤◌, ◌∷◌, ◌++◌, [], drop, encode_utf8_all, length, string_bytes, IfOk, IsOk};
ghost use Rattle.caseless.specs.Caseless.{default_case_fold};
ghost use Rattle.volume_meaning.specs.Words as words;
ghost use Rattle.volume_meaning.specs.Words.{characters_after, words_of};
ghost use Rattle.volume_meaning.specs.declared.word_rules.WordRule.TheVariants.{Folded};

use crate::Term;
use bstr::decode_utf8;
use cell_types::{NoMemory, memory};
use std::alloc::Global;
use ucd_case::full_folding;
use ucd_category::GeneralCategory;
use ucd_derived::is_alphabetic;

/// The character that stands for a byte where none begins. It is in no word.
const STRAY: char = '\u{FFFD}';

/// The words, read from the first byte on.
#[tactic(auto, unfolding(volume_meaning::specs::Words::words_of))]
pub(crate) fn read_folded(alloc: Global, bytes: &[u8]) -> Result<Vec<Term>, NoMemory>
    ensures { IfOk result (λ terms. terms.items ≡ words_of Folded bytes.now) }
{
    let mut terms = Vec::new(alloc);
    let mut run = String::new(alloc);
    let mut at = 0;
    while at < bytes.len() {
        let (unit, size) = next_unit(&bytes[at..]);
        at += size;
        if is_word_character(unit) {
            push_folded(&mut run, unit)?;
        } else if !run.as_bytes().is_empty() {
            memory::push(&mut terms, Term::new(run.into_bytes()))?;
            run = String::new(alloc);
        }
    }
    if run.as_bytes().is_empty() {
        return Ok(terms);
    }
    memory::push(&mut terms, Term::new(run.into_bytes()))?;
    Ok(terms)
}

/// The character at the front of these bytes, and how many bytes it takes; the stray one where none begins there.
fn next_unit(bytes: &[u8]) -> (char, usize)
    requires { 1 ≤ length bytes.now }
    ensures unit { characters_after 0 bytes.now ≡ result.0 ∷ characters_after 0 (drop result.1 bytes.now) }
    ensures some { 1 ≤ result.1 }
    ensures most { result.1 ≤ length bytes.now }
{
    let (found, size) = decode_utf8(bytes);
    let Some(character) = found else {
        return (STRAY, 1);
    };
    (character, size)
}

/// Whether the character is one of a word.
fn is_word_character(character: char) -> bool
    ensures { result ≡ words.is_word_character character }
{
    is_alphabetic(character)
        || GeneralCategory::for_char(character) == GeneralCategory::DecimalNumber
}

/// Puts the case folding of the character behind a text.
fn push_folded(run: &mut String, character: char) -> Result<(), NoMemory>
    ensures { IsOk result
        → string_bytes run.new ≡ string_bytes run.old ++ encode_utf8_all (default_case_fold (character ∷ [])) }
{
    let folded = full_folding(character);
    if folded.is_empty() {
        return memory::push_char(run, character);
    }
    for one in folded {
        memory::push_char(run, *one)?;
    }
    Ok(())
}
