//! The postings of a document.
ghost use Rattle.std.specs.Prelude.{◌≡◌, ◌<◌, ◌≤◌, IfErr, IfOk};
ghost use Rattle.cell_types.specs.declared.geometry.TheConstants.{MAX_SLOTS};
ghost use Rattle.term_tags.specs.Listing.{GivesListed, GivesNone, GivesPostings};

use cell_types::{NoMemory, Refusal};
use std::alloc::Global;
use term_tags::{
    KnownKeys, ListedPosting, Posting, document_postings, document_postings_by, postings,
};
use word_reader::Term;

/// `postings`.
pub fn postings_again(alloc: Global, terms: &[Term], lists: u16) -> Result<Vec<Posting>, Refusal>
    requires { 1 ≤ lists }
    ensures ok { IfOk result (λ rows. GivesPostings lists terms.now rows.items) }
    ensures err { IfErr result (GivesNone lists terms.now) }
{
    postings(alloc, terms, lists)
}

/// `document_postings`.
pub fn document_postings_again(
    alloc: Global,
    terms: &[Term],
    lists: u16,
    slot: u32,
    stamp: Option<u32>,
) -> Result<Vec<ListedPosting>, Refusal>
    requires lists { 1 ≤ lists }
    requires slot { slot < MAX_SLOTS }
    ensures ok { IfOk result (λ rows. GivesListed lists slot stamp terms.now rows.items) }
    ensures err { IfErr result (GivesNone lists terms.now) }
{
    document_postings(alloc, terms, lists, slot, stamp)
}

/// `document_postings_by`.
pub fn document_postings_by_again(
    alloc: Global,
    terms: &[Term],
    known: &mut KnownKeys,
    slot: u32,
    stamp: Option<u32>,
) -> Result<Vec<ListedPosting>, Refusal>
    requires { slot < MAX_SLOTS }
    ensures ok { IfOk result (λ rows. GivesListed known.old slot stamp terms.now rows.items) }
    ensures err { IfErr result (GivesNone known.old terms.now) }
    ensures same { known.new ≡ known.old }
{
    document_postings_by(alloc, terms, known, slot, stamp)
}

/// `KnownKeys::for_one_document`.
pub fn keys_of_one_again(alloc: Global, lists: u16) -> Result<KnownKeys, NoMemory>
    requires { 1 ≤ lists }
    ensures { IfOk result (λ known. known ≡ lists) }
{
    KnownKeys::for_one_document(alloc, lists)
}

/// `KnownKeys::for_many_documents`.
pub fn keys_of_many_again(alloc: Global, lists: u16) -> Result<KnownKeys, NoMemory>
    requires { 1 ≤ lists }
    ensures { IfOk result (λ known. known ≡ lists) }
{
    KnownKeys::for_many_documents(alloc, lists)
}
