//! The words of bytes.
ghost use Rattle.std.specs.Prelude.{◌≡◌, IfOk};
ghost use Rattle.volume_meaning.specs.Words.{is_word_byte, lowered, AreWords, words_of};
ghost use Rattle.volume_meaning.specs.declared.word_rules.WordRule.TheVariants.{Ascii};
ghost use Rattle.word_reader.specs.Single.{SingleEnds};
ghost use Rattle.word_reader.specs.declared.reader.WordFault.TheVariants as faults;

use crate::Term;
use crate::folded::read_folded;
use cell_types::{NoMemory, memory};
use std::alloc::Global;
use volume_meaning::WordRule;

/// The words of these bytes, in order and with repeats.
pub fn words(alloc: Global, bytes: &[u8], rule: WordRule) -> Result<Vec<Term>, NoMemory>
    ensures { IfOk result (λ terms. AreWords rule bytes.now terms.items) }
{
    let terms = read_words(alloc, bytes, rule)?;
    Ok(terms)
}

/// Why there is no one term of a word.
#[derive(Clone, Copy)]
pub enum WordFault {
    /// It does not hold exactly one term.
    BadWord,
    /// No memory was to be had.
    NoMemory(NoMemory),
}

impl From<NoMemory> for WordFault {
    ghost from_gives = { λ lack fault. fault ≡ faults.NoMemory lack };

    fn from(lack: NoMemory) -> WordFault {
        WordFault::NoMemory(lack)
    }
}

/// The one term that a word of a query holds.
pub fn single_term(alloc: Global, word: &[u8], rule: WordRule) -> Result<Term, WordFault>
    ensures { SingleEnds rule word.now result }
{
    let mut terms = read_words(alloc, word, rule)?;
    if terms.len() != 1 {
        return Err(WordFault::BadWord);
    }
    Ok(terms.remove(0))
}

/// The words, read from the first byte on.
fn read_words(alloc: Global, bytes: &[u8], rule: WordRule) -> Result<Vec<Term>, NoMemory>
    ensures { IfOk result (λ terms. terms.items ≡ words_of rule bytes.now) }
{
    match rule {
        WordRule::Ascii => read_bytes(alloc, bytes),
        WordRule::Folded => read_folded(alloc, bytes),
    }
}

/// The words of bytes as bytes.
#[tactic(auto, unfolding(volume_meaning::specs::Words::words_of))]
fn read_bytes(alloc: Global, bytes: &[u8]) -> Result<Vec<Term>, NoMemory>
    ensures { IfOk result (λ terms. terms.items ≡ words_of Ascii bytes.now) }
{
    let mut terms = Vec::new(alloc);
    let mut run = Vec::new(alloc);
    for byte in bytes {
        if is_of_word(*byte) {
            memory::push(&mut run, lower(*byte))?;
        } else if !run.is_empty() {
            memory::push(&mut terms, Term::new(run))?;
            run = Vec::new(alloc);
        }
    }
    if !run.is_empty() {
        memory::push(&mut terms, Term::new(run))?;
    }
    Ok(terms)
}

/// The first byte past ASCII.
const PAST_ASCII: u8 = 0x80;

/// Whether the byte is one of a word.
pub(crate) fn is_of_word(byte: u8) -> bool
    ensures { result ≡ is_word_byte byte }
{
    byte.is_ascii_alphanumeric() || byte >= PAST_ASCII
}

/// A to Z as a to z, and each other byte as it is.
pub(crate) fn lower(byte: u8) -> u8
    ensures { result ≡ lowered byte }
{
    byte.to_ascii_lowercase()
}
