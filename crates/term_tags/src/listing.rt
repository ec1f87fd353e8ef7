//! The postings of a slot's document as an index holds them: each with its list and its key, and behind those of the words
//! that of the document's stamp.
ghost use Rattle.std.specs.Prelude.{◌≡◌, ◌<◌, ◌≤◌, ◌++◌, IfErr, IfOk, map};
ghost use Rattle.cell_types.specs.declared.geometry.TheConstants.{MAX_SLOTS};
ghost use Rattle.volume_meaning.specs.Postings.{time_posting};
ghost use Rattle.term_tags.specs.Listing.{GivesNone, GivesListed, listed, time_entries};

use crate::known_keys::KnownKeys;
use crate::rows::{Posting, postings_by};
use cell_types::{NoMemory, Refusal, memory};
use std::alloc::Global;
use std::marker::Model;
use volume_meaning::PostingFields;
use word_reader::Term;

/// A posting and its list. Contracts see the definition of one.
#[derive(Clone, Copy)]
pub struct ListedPosting {
    list: u16,
    posting: PostingFields,
}

impl Model for ListedPosting {
    ghost use Rattle.volume_meaning.specs.Postings as paths;

    ghost Value = { paths.ListedPosting };

    ghost view = { λ p. record { list = p.list; posting = p.posting } };

    ghost inverse = { λ v. record { list = v.list; posting = v.posting } };
}

impl ListedPosting {
    ghost use Rattle.std.specs.Prelude.{◌≡◌};

    /// The number of the list; that of the time list is the number of the lists of words.
    pub fn list(&self) -> u16
        ensures { result ≡ self.now.list }
    {
        self.list
    }

    /// What the posting says.
    pub fn posting(&self) -> PostingFields
        ensures { result ≡ self.now.posting }
    {
        self.posting
    }

    /// 256 times the slot, plus the ordinal; in the time list the stamp, in seconds.
    pub fn key(&self) -> u32
        ensures { result ≡ self.now.posting.key }
    {
        self.posting.key
    }

    /// The greatest ordinal of the document in the list; in the time list 255.
    pub fn last(&self) -> u8
        ensures { result ≡ self.now.posting.last }
    {
        self.posting.last
    }

    /// The first six bytes of the term's digest; in the time list the four bytes of the slot, and two zeros.
    pub fn tag(&self) -> [u8; 6]
        ensures { result ≡ self.now.posting.tag }
    {
        self.posting.tag
    }
}

/// The postings of the document with these words in a slot, by list and key, the last of them that of its stamp; or the
/// lowest list that would get more than 256 tags, with the number of them.
pub fn document_postings(
    alloc: Global,
    terms: &[Term],
    lists: u16,
    slot: u32,
    stamp: Option<u32>,
) -> Result<Vec<ListedPosting>, Refusal>
    requires lists { 1 ≤ lists }
    requires slot { slot < MAX_SLOTS }
    ensures ok { IfOk result (λ rows. GivesListed lists slot stamp terms.now rows.items) }
    ensures err { IfErr result (GivesNone lists terms.now) }
{
    let mut known = KnownKeys::for_one_document(alloc, lists)?;
    document_postings_by(alloc, terms, &mut known, slot, stamp)
}

/// The same for the lists of keys that are known: a word with such a key is not digested, and others become known.
pub fn document_postings_by(
    alloc: Global,
    terms: &[Term],
    known: &mut KnownKeys,
    slot: u32,
    stamp: Option<u32>,
) -> Result<Vec<ListedPosting>, Refusal>
    requires { slot < MAX_SLOTS }
    ensures ok { IfOk result (λ rows. GivesListed known.old slot stamp terms.now rows.items) }
    ensures err { IfErr result (GivesNone known.old terms.now) }
    ensures same { known.new ≡ known.old }
{
    let lists = known.lists();
    let of_words = postings_by(alloc, terms, known)?;
    let rows = list_all(alloc, &of_words, lists, slot, stamp)?;
    Ok(rows)
}

/// The postings of the words, and that of the stamp.
fn list_all(
    alloc: Global,
    of_words: &[Posting],
    lists: u16,
    slot: u32,
    stamp: Option<u32>,
) -> Result<Vec<ListedPosting>, NoMemory>
    requires { slot < MAX_SLOTS }
    ensures { IfOk result (λ rows. rows.items ≡ map (listed slot) of_words.now ++ time_entries lists slot stamp) }
{
    let mut rows = memory::with_capacity(alloc, of_words.len())?;
    for posting in of_words {
        memory::push(&mut rows, list_one(posting, slot))?;
    }
    if let Some(seconds) = stamp {
        memory::push(&mut rows, time_entry(lists, slot, seconds))?;
    }
    Ok(rows)
}

/// The posting of a word, in a slot's document.
fn list_one(posting: &Posting, slot: u32) -> ListedPosting
    requires { slot < MAX_SLOTS }
    ensures { result ≡ listed slot posting.now }
{
    ListedPosting {
        list: posting.list,
        posting: PostingFields {
            key: 256 * slot + u32::from(posting.ordinal),
            last: posting.last,
            tag: posting.tag,
        },
    }
}

/// The posting of a slot's stamp, which names the slot in its tag. The time list is behind those of words.
fn time_entry(lists: u16, slot: u32, seconds: u32) -> ListedPosting
    ensures { result ≡ record { list = lists; posting = time_posting slot seconds } }
{
    let bytes = slot.to_be_bytes();
    ListedPosting {
        list: lists,
        posting: PostingFields {
            key: seconds,
            last: u8::MAX,
            tag: [bytes[0], bytes[1], bytes[2], bytes[3], 0, 0],
        },
    }
}
