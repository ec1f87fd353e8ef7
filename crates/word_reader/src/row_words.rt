//! Whether a term is one of the words that end within a row.
ghost use Rattle.std.specs.Prelude.{◌≡◌, ◌<◌, ◌≤◌, ◌+◌, ◌↔◌, [], ℕ, List, IsTrue, length, take};
ghost use Rattle.word_reader.specs.RowWords.{IsFrontOf, SpellsAt, StandsAt, StandsAtNone, is_behind, run_after};
ghost use Rattle.word_reader.specs.RowWords as words;

use crate::lanes::{LANES, WIDE_LANES, are_found, places_before};
use crate::reader::{is_of_word, lower};

/// Whether the bytes from this place on spell the term.
fn spells_at(row: &[u8], at: usize, term: &[u8]) -> bool
    requires { at + length term.now ≤ length row.now }
    ensures { IsTrue result ↔ SpellsAt row.now at term.now }
{
    for k in 0..term.len() {
        let byte = row[at + k];
        if !is_of_word(byte) || lower(byte) != term[k] {
            return false;
        }
    }
    true
}

/// Whether a byte of a word stands before this place.
fn is_behind_word(row: &[u8], at: usize) -> bool
    requires { at ≤ length row.now }
    ensures same { result ≡ is_behind row.now at }
    ensures some { IsTrue result → 1 ≤ at }
{
    at > 0 && is_of_word(row[at - 1])
}

/// How many bytes of a row come before its last run, which the next row may go on with.
pub(crate) fn before_run(row: &[u8]) -> usize
    ensures low { result ≤ length row.now }
    ensures gap { run_after [] (take result row.now) ≡ [] }
{
    let mut end = row.len();
    while is_behind_word(row, end) {
        end -= 1;
    }
    end
}

/// Whether the word that begins at this place is the term, and ends within the row.
fn stands_at(row: &[u8], at: usize, term: &[u8]) -> bool
    requires some { 1 ≤ length term.now }
    requires low { at ≤ length row.now }
    ensures { IsTrue result ↔ StandsAt row.now at term.now }
{
    if row.len() - at <= term.len() || lower(row[at]) != term[0] {
        return false;
    }
    if is_behind_word(row, at) || is_of_word(row[at + term.len()]) {
        return false;
    }
    spells_at(row, at, term)
}

/// Two neighbouring bytes of a term, or its only one twice: those that stand behind so many others of it, the second so
/// many bytes behind the first.
#[derive(Clone, Copy)]
struct TermFront {
    offset: usize,
    first: u8,
    behind: usize,
    second: u8,
}

/// From how many bytes on a row is long: then it pays to look for the rarest two bytes of a term, in wide steps.
const LONG_ROW: usize = 2_048;

/// Two bytes of a term by which it is sought in a row: the first two, or, where the row is long, those that texts have
/// least.
fn front_of(term: &[u8], row: usize) -> TermFront
    requires { 1 ≤ length term.now }
    ensures { IsFrontOf term.now result }
{
    if row < LONG_ROW {
        return pair_at(term, 0);
    }
    pair_at(term, rarest_pair(term))
}

/// The two bytes of a term from this offset on, or the only one that is left twice.
fn pair_at(term: &[u8], offset: usize) -> TermFront
    requires { offset < length term.now }
    ensures { IsFrontOf term.now result }
{
    let behind = usize::from(term.len() - offset > 1);
    TermFront {
        offset,
        first: term[offset],
        behind,
        second: term[offset + behind],
    }
}

/// Where in a term the two neighbouring bytes begin that texts have least. Any two of them would do.
fn rarest_pair(term: &[u8]) -> usize
    requires { 1 ≤ length term.now }
    ensures { result < length term.now }
{
    let mut best = 0;
    let mut least = u8::MAX;
    for at in 1..term.len() {
        let common = how_common(term[at - 1]) + how_common(term[at]);
        if common < least {
            least = common;
            best = at - 1;
        }
    }
    best
}

/// How common a letter is in texts of European languages, from 0 to 4.
fn how_common(byte: u8) -> u8
    ensures { result ≤ 4 }
{
    match byte {
        b'e' => 4,
        b'a' | b'i' | b'n' | b'o' | b'r' | b's' | b't' => 3,
        b'c' | b'd' | b'h' | b'l' | b'm' | b'u' => 2,
        b'b' | b'f' | b'g' | b'p' | b'v' | b'w' | b'y' => 1,
        _ => 0,
    }
}

/// A place from this one on, before which no term with this front stands. It comes near to the first at which one may:
/// sixty-four places are passed at once.
fn pass_wide(row: &[u8], from: usize, front: TermFront) -> usize
    requires low { from ≤ length row.now }
    requires near { front.behind ≤ 1 }
    ensures low { result ≤ length row.now }
    ensures forward { from ≤ result }
    ensures none { (term : List ℕ) → IsFrontOf term front → StandsAtNone row.now from result term }
{
    if row.len() < LONG_ROW {
        return from;
    }
    let end = row
        .len()
        .saturating_sub(WIDE_LANES)
        .saturating_sub(front.offset);
    let mut at = from;
    while at < end {
        if are_found(
            row,
            at + front.offset,
            front.first,
            front.behind,
            front.second,
        ) {
            return at;
        }
        at += WIDE_LANES;
    }
    at
}

/// The first place from this one on at which a term with this front may stand. The last sixteen places of a row are not
/// passed.
fn next_place(row: &[u8], from: usize, front: TermFront) -> usize
    requires low { from ≤ length row.now }
    requires near { front.behind ≤ 1 }
    ensures low { result ≤ length row.now }
    ensures forward { from ≤ result }
    ensures none { (term : List ℕ) → IsFrontOf term front → StandsAtNone row.now from result term }
{
    let end = row.len().saturating_sub(LANES).saturating_sub(front.offset);
    let mut at = pass_wide(row, from, front);
    while at < end {
        let passed = places_before(
            row,
            at + front.offset,
            front.first,
            front.behind,
            front.second,
        );
        at += passed;
        if passed < LANES {
            return at;
        }
    }
    at
}

/// Whether the term is one of the words that end within the row.
pub(crate) fn has_word(row: &[u8], term: &[u8]) -> bool
    ensures { result ≡ words.has_word row.now term.now }
{
    if term.is_empty() {
        return false;
    }
    // Taken once, so that nothing of the term is read where places are passed.
    let front = front_of(term, row.len());
    let mut from = 0;
    while from < row.len() {
        let at = next_place(row, from, front);
        if stands_at(row, at, term) {
            return true;
        }
        from = at + 1;
    }
    false
}
