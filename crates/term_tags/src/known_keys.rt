//! Keys of words that were digested before.
ghost use Rattle.std.specs.Prelude.{◌≡◌, ◌≤◌, ℕ, All, IfOk, IfSome, length};
ghost use Rattle.term_tags.specs.Keys.{key_of};
ghost use Rattle.term_tags.specs.Known.{IsKnown, short_bytes};

use crate::keys::key_of;
use crate::short_word::ShortWord;
use cell_types::{NoMemory, memory};
use std::alloc::Global;
use std::marker::Model;

/// How many places serve the words of one document, in 12 KiB.
const DOCUMENT_PLACES: usize = 512;

/// How many serve those of many, in 768 KiB. Of the 2,782,525 words of a corpus, 80,874 of them different, 6 in 100 are
/// then digested, and with ten times the places 3.
const MANY_PLACES: usize = 32_768;

/// A word and its key.
#[derive(Clone, Copy)]
pub(crate) struct KnownKey {
    pub(crate) word: ShortWord,
    pub(crate) key: u64,
}

/// Keys of words for so many lists, each at the place that a sum of the word's bytes gives. A word that comes to the
/// place of another replaces it, and nothing grows. So whoever chooses the words can at worst have each of them
/// digested. Contracts see the number of the lists.
#[derive(Drop)]
pub struct KnownKeys {
    lists: u16,
    places: Vec<KnownKey>,
}

impl Model for KnownKeys {
    ghost use Rattle.std.specs.Prelude.{◌≤◌, ℕ, All};
    ghost use Rattle.term_tags.specs.Known.{IsKnown};

    ghost Value = { ℕ };

    ghost view = { λ k. k.lists };

    ghost invariant = { λ k. (1 ≤ k.lists) × All (IsKnown k.lists) k.places.items };
}

impl KnownKeys {
    ghost use Rattle.std.specs.Prelude.{◌≡◌, ◌≤◌, IfOk};

    /// No word yet, and places for those of one document.
    pub fn for_one_document(alloc: Global, lists: u16) -> Result<KnownKeys, NoMemory>
        requires { 1 ≤ lists }
        ensures { IfOk result (λ known. known ≡ lists) }
    {
        KnownKeys::with_places(alloc, lists, DOCUMENT_PLACES)
    }

    /// No word yet, and places for those of many documents.
    pub fn for_many_documents(alloc: Global, lists: u16) -> Result<KnownKeys, NoMemory>
        requires { 1 ≤ lists }
        ensures { IfOk result (λ known. known ≡ lists) }
    {
        KnownKeys::with_places(alloc, lists, MANY_PLACES)
    }

    /// The empty word's key at each of so many places.
    fn with_places(alloc: Global, lists: u16, places: usize) -> Result<KnownKeys, NoMemory>
        requires { 1 ≤ lists }
        ensures { IfOk result (λ known. known ≡ lists) }
    {
        let none = KnownKey {
            word: ShortWord::empty(),
            key: key_of(&[], lists),
        };
        let places = memory::repeated(alloc, none, places)?;
        Ok(KnownKeys { lists, places })
    }

    /// For how many lists they are.
    pub(crate) fn lists(&self) -> u16
        ensures same { result ≡ self.now }
        ensures some { 1 ≤ self.now }
    {
        self.lists
    }

    /// The key of a word: the one that is kept, or that of its digest, which is kept then.
    pub(crate) fn key_of(&mut self, word: &[u8]) -> u64
        ensures key { result ≡ key_of self.old word.now }
        ensures same { self.new ≡ self.old }
    {
        let Some(short) = ShortWord::of(word) else {
            return key_of(word, self.lists);
        };
        let at = place_for(word, self.places.len());
        if let Some(key) = key_at(&self.places, at, short) {
            return key;
        }
        let key = key_of(word, self.lists);
        keep_at(&mut self.places, at, KnownKey { word: short, key });
        key
    }
}

/// One of so many places for these bytes, such that others mostly have another.
fn place_for(bytes: &[u8], places: usize) -> usize {
    let mut sum: u32 = 0;
    for byte in bytes {
        sum = sum.wrapping_mul(31).wrapping_add(u32::from(*byte));
    }
    if places == 0 {
        return 0;
    }
    sum as usize % places
}

/// The key that is kept at a place, where it is this word's.
fn key_at(places: &[KnownKey], at: usize, word: ShortWord) -> Option<u64>
    ensures { (lists : ℕ) → All (IsKnown lists) places.now
        → IfSome result (λ key. key ≡ key_of lists (short_bytes word)) }
{
    if at >= places.len() {
        return None;
    }
    let known = places[at];
    if known.word != word {
        return None;
    }
    Some(known.key)
}

/// Keeps a word's key at a place, if there is such a one.
fn keep_at(places: &mut Vec<KnownKey>, at: usize, known: KnownKey)
    ensures { (lists : ℕ) → All (IsKnown lists) places.old.items → IsKnown lists known
        → All (IsKnown lists) places.new.items }
{
    if at < places.len() {
        places[at] = known;
    }
}
