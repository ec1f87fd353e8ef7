//! Whether terms are among the words of bytes, by the rule that reads bytes. It keeps none of them.
ghost use Rattle.std.specs.Prelude.{◌≡◌, ◌<◌, ◌≤◌, ◌↔◌, ◌||◌, [], ◌∷◌, ◌++◌, ℕ, List, IsTrue, IfOk, length, map, take};
ghost use Rattle.std.specs.List.{list_all};
ghost use Rattle.volume_meaning.specs.Words.{Matches};
ghost use Rattle.volume_meaning.specs.declared.word_rules.WordRule.TheVariants.{Ascii};
ghost use Rattle.word_reader.specs.Matching.{KnowsBytes, SeekAll, cleared, goes_on, has_ended, is_found, is_whole, pushed, taken};
ghost use Rattle.word_reader.specs.RowWords as words;

use crate::Term;
use crate::reader::{is_of_word, lower};
use crate::row_words::{before_run, has_word};
use cell_types::{NoMemory, memory};
use std::alloc::Global;

/// One of the terms, and what the bytes so far say of it.
#[derive(Drop)]
struct Sought {
    bytes: Vec<u8>,
    /// Whether it is among the words that have ended.
    found: bool,
    /// Whether the run that has not ended is a front of it.
    agrees: bool,
    /// How many bytes this front has.
    front: usize,
}

impl Sought {
    /// Whether the run so far is the whole term.
    fn is_whole(&self) -> bool
        ensures { result ≡ is_whole self.now }
    {
        self.agrees && (self.front > 0 && self.front == self.bytes.len())
    }

    /// Whether it is found, or would be if the bytes ended here.
    fn is_found(&self) -> bool
        ensures { result ≡ is_found self.now }
    {
        self.found || self.is_whole()
    }

    /// Whether the byte is the term's next one.
    fn goes_on(&self, byte: u8) -> bool
        ensures same { result ≡ goes_on byte self.now }
        ensures room { IsTrue result → self.now.front < length self.now.bytes.items }
    {
        self.agrees && (self.front < self.bytes.len() && self.bytes[self.front] == lower(byte))
    }

    /// Takes one more byte.
    fn push(&mut self, byte: u8)
        ensures { self.new ≡ pushed byte self.old }
    {
        if !is_of_word(byte) {
            self.found = self.is_found();
            self.agrees = true;
            self.front = 0;
            return;
        }
        if self.goes_on(byte) {
            self.front += 1;
            return;
        }
        self.agrees = false;
    }

    /// Whether it is found, or is one of the words that end within a row.
    fn is_found_in(&self, row: &[u8]) -> bool
        ensures { result ≡ (self.now.found || words.has_word row.now self.now.bytes.items) }
    {
        self.found || has_word(row, &self.bytes)
    }

    /// Takes a row that begins and ends between words.
    fn take_row(&mut self, row: &[u8])
        ensures { self.new ≡ taken row.now self.old }
    {
        self.found = self.is_found_in(row);
    }

    /// Forgets all bytes.
    fn clear(&mut self)
        ensures { self.new ≡ cleared self.old }
    {
        self.found = false;
        self.agrees = true;
        self.front = 0;
    }
}

/// Takes one more byte for each of them.
fn push_each(sought: &mut [Sought], byte: u8)
    ensures { sought.new ≡ map (pushed byte) sought.old }
{
    for one in sought.iter_mut() {
        one.push(byte);
    }
}

/// Takes a row that begins and ends between words for each of them.
fn take_each(sought: &mut [Sought], row: &[u8])
    ensures { sought.new ≡ map (taken row.now) sought.old }
{
    for one in sought.iter_mut() {
        one.take_row(row);
    }
}

/// Whether each of them has ended.
fn have_ended(sought: &[Sought]) -> bool
    ensures { result ≡ list_all has_ended sought.now }
{
    for one in sought {
        if !one.found {
            return false;
        }
    }
    true
}

/// Forgets all bytes for each of them.
fn clear_each(sought: &mut [Sought])
    ensures { sought.new ≡ map cleared sought.old }
{
    for one in sought.iter_mut() {
        one.clear();
    }
}

/// Whether each of them is found.
fn are_found(sought: &[Sought]) -> bool
    ensures { result ≡ list_all is_found sought.now }
{
    for one in sought {
        if !one.is_found() {
            return false;
        }
    }
    true
}

/// Whether all of some terms are among the words of bytes that come one by one. It keeps none of these bytes, and takes
/// memory in `new` alone.
///
/// Each word that begins and ends within one row is compared where it stands, and byte by byte come those alone that cross
/// from one row into the next.
#[derive(Drop)]
pub(crate) struct ByteMatcher {
    sought: Vec<Sought>,
    /// Whether the last byte is one of a word.
    inside: bool,
    /// If it is set, all terms were found, and more bytes are not looked at.
    all: bool,
}

impl ByteMatcher {
    /// A matcher of these terms, to which no byte was pushed.
    pub(crate) fn new(alloc: Global, terms: &[Term]) -> Result<ByteMatcher, NoMemory>
        ensures { IfOk result (λ matcher. KnowsBytes matcher terms.now []) }
    {
        let sought = sought_of(alloc, terms)?;
        Ok(ByteMatcher {
            sought,
            inside: false,
            all: false,
        })
    }

    /// Takes these bytes.
    pub(crate) fn push_all(&mut self, bytes: &[u8])
        ensures { (terms : List (List ℕ)) (before : List ℕ) → KnowsBytes self.old terms before
            → KnowsBytes self.new terms (before ++ bytes.now) }
    {
        if self.all {
            return;
        }
        let begin = self.push_run(bytes);
        let end = begin + self.push_words(&bytes[begin..]);
        self.push_bytes(&bytes[end..]);
    }

    /// Takes the first of these bytes, up to the end of a word that has begun before them, and answers how many.
    fn push_run(&mut self, bytes: &[u8]) -> usize
        ensures low { result ≤ length bytes.now }
        ensures pushed { (terms : List (List ℕ)) (before : List ℕ) → KnowsBytes self.old terms before
            → KnowsBytes self.new terms (before ++ take result bytes.now) }
    {
        let mut at = 0;
        while self.inside && at < bytes.len() {
            self.push(bytes[at]);
            at += 1;
        }
        at
    }

    /// Takes the first of these bytes, up to the last word, which more bytes may go on with, and answers how many. It takes
    /// none where a word has begun before them.
    fn push_words(&mut self, bytes: &[u8]) -> usize
        ensures low { result ≤ length bytes.now }
        ensures pushed { (terms : List (List ℕ)) (before : List ℕ) → KnowsBytes self.old terms before
            → KnowsBytes self.new terms (before ++ take result bytes.now) }
    {
        if self.inside || self.all {
            return 0;
        }
        let end = before_run(bytes);
        take_each(&mut self.sought, &bytes[..end]);
        self.all = have_ended(&self.sought);
        end
    }

    /// Takes these bytes, one by one.
    fn push_bytes(&mut self, bytes: &[u8])
        ensures { (terms : List (List ℕ)) (before : List ℕ) → KnowsBytes self.old terms before
            → KnowsBytes self.new terms (before ++ bytes.now) }
    {
        for byte in bytes {
            self.push(*byte);
        }
    }

    /// Takes one more byte.
    pub(crate) fn push(&mut self, byte: u8)
        ensures { (terms : List (List ℕ)) (bytes : List ℕ) → KnowsBytes self.old terms bytes
            → KnowsBytes self.new terms (bytes ++ byte ∷ []) }
    {
        push_each(&mut self.sought, byte);
        self.inside = is_of_word(byte);
    }

    /// Whether each of the terms is among the words of the bytes so far. More bytes may follow.
    pub(crate) fn finish(&self) -> bool
        ensures { (terms : List (List ℕ)) (bytes : List ℕ) → KnowsBytes self.now terms bytes
            → IsTrue result ↔ Matches Ascii bytes terms }
    {
        are_found(&self.sought)
    }

    /// Forgets the bytes and keeps the terms, so that it serves for the next body.
    pub(crate) fn clear(&mut self)
        ensures { (terms : List (List ℕ)) (bytes : List ℕ) → KnowsBytes self.old terms bytes
            → KnowsBytes self.new terms [] }
    {
        clear_each(&mut self.sought);
        self.inside = false;
        self.all = false;
    }
}

/// What is sought of these terms.
fn sought_of(alloc: Global, terms: &[Term]) -> Result<Vec<Sought>, NoMemory>
    ensures { IfOk result (λ sought. SeekAll sought.items terms.now []) }
{
    let mut sought = Vec::new(alloc);
    for term in terms {
        let mut bytes = Vec::new(alloc);
        memory::extend_from_slice(&mut bytes, term.bytes())?;
        memory::push(
            &mut sought,
            Sought {
                bytes,
                found: false,
                agrees: true,
                front: 0,
            },
        )?;
    }
    Ok(sought)
}
