//! Whether terms are among the words of bytes, by the rule that reads characters. It keeps the bytes: a character may
//! come in parts, and how it folds is known only where it is whole.
ghost use Rattle.std.specs.Prelude.{◌≡◌, ◌↔◌, ◌++◌, [], ℕ, List, Contains, IfErr, IfOk, IsTrue};
ghost use Rattle.volume_meaning.specs.Words.{Matches};
ghost use Rattle.volume_meaning.specs.declared.word_rules.WordRule.TheVariants.{Folded};
ghost use Rattle.word_reader.specs.Matching.{AreAmong, KeepsBytes};

use crate::Term;
use crate::reader::words;
use cell_types::{NoMemory, memory};
use std::alloc::Global;
use volume_meaning::WordRule;

/// Whether all of some terms are among the words of bytes that come one by one.
#[derive(Drop)]
pub(crate) struct TextMatcher {
    terms: Vec<Term>,
    /// The bytes so far.
    bytes: Vec<u8>,
}

impl TextMatcher {
    /// A matcher of these terms, to which no byte was pushed.
    pub(crate) fn new(alloc: Global, terms: &[Term]) -> Result<TextMatcher, NoMemory>
        ensures { IfOk result (λ matcher. KeepsBytes matcher terms.now []) }
    {
        Ok(TextMatcher {
            terms: copies_of(alloc, terms)?,
            bytes: Vec::new(alloc),
        })
    }

    /// Takes these bytes. Where memory is short it has those from before.
    pub(crate) fn push_all(&mut self, bytes: &[u8]) -> Result<(), NoMemory>
        ensures ok { IfOk result (λ _. (terms : List (List ℕ)) (before : List ℕ) → KeepsBytes self.old terms before
            → KeepsBytes self.new terms (before ++ bytes.now)) }
        ensures err { IfErr result (λ _. (terms : List (List ℕ)) (before : List ℕ) → KeepsBytes self.old terms before
            → KeepsBytes self.new terms before) }
    {
        memory::extend_from_slice(&mut self.bytes, bytes)?;
        Ok(())
    }

    /// Whether each of the terms is among the words of the bytes so far.
    pub(crate) fn finish(&self) -> Result<bool, NoMemory>
        ensures { IfOk result (λ all. (terms : List (List ℕ)) (bytes : List ℕ) → KeepsBytes self.now terms bytes
            → IsTrue all ↔ Matches Folded bytes terms) }
    {
        let alloc = *self.bytes.allocator();
        let found = words(alloc, &self.bytes, WordRule::Folded)?;
        Ok(are_among(&found, &self.terms))
    }

    /// Forgets the bytes and keeps the terms.
    pub(crate) fn clear(&mut self)
        ensures { (terms : List (List ℕ)) (bytes : List ℕ) → KeepsBytes self.old terms bytes
            → KeepsBytes self.new terms [] }
    {
        self.bytes.clear();
    }
}

/// The same terms once more.
fn copies_of(alloc: Global, terms: &[Term]) -> Result<Vec<Term>, NoMemory>
    ensures { IfOk result (λ copies. copies.items ≡ terms.now) }
{
    let mut copies = memory::with_capacity(alloc, terms.len())?;
    for term in terms {
        memory::push(&mut copies, term.copy(alloc)?)?;
    }
    Ok(copies)
}

/// Whether each of the terms is one of these words.
fn are_among(words: &[Term], terms: &[Term]) -> bool
    ensures { IsTrue result ↔ AreAmong words.now terms.now }
{
    for term in terms {
        if !is_among(words, term) {
            return false;
        }
    }
    true
}

/// Whether the term is one of these words.
fn is_among(words: &[Term], term: &Term) -> bool
    ensures { IsTrue result ↔ Contains words.now term.now }
{
    for word in words {
        if word.bytes() == term.bytes() {
            return true;
        }
    }
    false
}
