//! The postings of a document, by list and ordinal.
ghost use Rattle.std.specs.Prelude.{◌≡◌, ◌≤◌, ◌<◌, ◌^◌, IfErr, IfOk, IfNone, IfSome, length};
ghost use Rattle.term_tags.specs.Keys.{AreInLists};
ghost use Rattle.term_tags.specs.Listing.{AreCounts, AllFit, GivesNone, GivesPostings, IsFirstOver, posting_rows};

use crate::keys::{distinct_keys, list_in, tag_in};
use crate::known_keys::KnownKeys;
use cell_types::{NoMemory, Refusal, memory};
use std::alloc::Global;
use word_reader::Term;

/// How many distinct tags of one document a list gets at most, since an ordinal is one byte.
pub const MAX_TAGS: u32 = 256;

/// A posting of a document: its list, its ordinal there, the greatest ordinal there, and the tag.
#[derive(Clone, Copy)]
pub struct Posting {
    pub list: u16,
    pub ordinal: u8,
    pub last: u8,
    pub tag: [u8; 6],
}

/// The postings of the document with these words, by list and ordinal; or the lowest list that would get more than 256
/// tags, with the number of them. There is no memory for 2^32 tags.
pub fn postings(alloc: Global, terms: &[Term], lists: u16) -> Result<Vec<Posting>, Refusal>
    requires { 1 ≤ lists }
    ensures ok { IfOk result (λ rows. GivesPostings lists terms.now rows.items) }
    ensures err { IfErr result (GivesNone lists terms.now) }
{
    let mut known = KnownKeys::for_one_document(alloc, lists)?;
    postings_by(alloc, terms, &mut known)
}

/// The same for the lists of keys that are known, with more of them known then.
pub(crate) fn postings_by(
    alloc: Global,
    terms: &[Term],
    known: &mut KnownKeys,
) -> Result<Vec<Posting>, Refusal>
    ensures ok { IfOk result (λ rows. GivesPostings known.old terms.now rows.items) }
    ensures err { IfErr result (GivesNone known.old terms.now) }
    ensures same { known.new ≡ known.old }
{
    let lists = known.lists();
    let keys = distinct_keys(alloc, terms, known)?;
    memory::count_of(&keys)?;
    let counts = count_each(alloc, &keys, lists)?;
    if let Some((list, count)) = first_over(&counts, lists) {
        return Err(Refusal::TooManyTerms { list, count });
    }
    let rows = rows(alloc, &keys, &counts, lists)?;
    Ok(rows)
}

/// How many of the keys each list has.
fn count_each(alloc: Global, keys: &[u64], lists: u16) -> Result<Vec<u32>, NoMemory>
    requires below { AreInLists lists keys.now }
    requires few { length keys.now < 2 ^ 32 }
    ensures { IfOk result (λ counts. AreCounts lists keys.now counts.items) }
{
    let mut counts = memory::repeated(alloc, 0, usize::from(lists))?;
    for key in keys {
        counts[usize::from(list_in(*key))] += 1;
    }
    Ok(counts)
}

/// The lowest list with more tags than a list gets, and their number.
fn first_over(counts: &[u32], lists: u16) -> Option<(u16, u32)>
    requires { length counts.now ≡ lists }
    ensures over { IfSome result (λ over. IsFirstOver counts.now over.0 over.1) }
    ensures fit { IfNone result (AllFit counts.now lists) }
{
    for list in 0..lists {
        let count = counts[usize::from(list)];
        if count > MAX_TAGS {
            return Some((list, count));
        }
    }
    None
}

/// The posting of each key, where each list has at most 256 of them.
fn rows(alloc: Global, keys: &[u64], counts: &[u32], lists: u16) -> Result<Vec<Posting>, NoMemory>
    requires below { AreInLists lists keys.now }
    requires counts { AreCounts lists keys.now counts.now }
    requires fit { AllFit counts.now lists }
    ensures { IfOk result (λ rows. rows.items ≡ posting_rows keys.now) }
{
    let mut rows = memory::with_capacity(alloc, keys.len())?;
    let mut given = memory::repeated(alloc, 0, usize::from(lists))?;
    for key in keys {
        let list = list_in(*key);
        let at = usize::from(list);
        let ordinal: u16 = given[at];
        memory::push(
            &mut rows,
            Posting {
                list,
                ordinal: ordinal as u8,
                last: (counts[at] - 1) as u8,
                tag: tag_in(*key),
            },
        )?;
        given[at] = ordinal + 1;
    }
    Ok(rows)
}
