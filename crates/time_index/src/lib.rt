//! The documents of a span of time, on a volume whose documents are stamped.
//!
//! Each document of such a volume has a stamp, in seconds, which is greater than those before it. Its posting stands in the
//! time list, behind the lists of words, under its stamp as the key. Somebody writes an entry into cell 581 here:
//!
//!     cell 580    key 1000    slot 0    the posting of `a`, which has the stamp 1000
//!          581    key 2000    slot 5    whose slot is blank
//!
//!     from 0 to 1500    the first entry at or past 0 is that of 1000: slot 0 is done and has this stamp: `a`
//!                       the first at or past 1001 is that of 2000, which is past the span
//!     from 0 to 3000    slot 5 is not done: cell 581 is evidence, by rule 9
//!
//! **None that is kept is hidden.** A posting that has a trail is passed by no search, whatever somebody else writes, and
//! where the document of its slot is broken this is named. He may
//! add an entry under the same stamp, and which of two a search meets depends on where it began; so the search is made
//! again for each stamp that it meets, which answers the posting with the trail. An entry leads to a match only where its
//! slot is done, lies before the horizon and has this very stamp; any other entry is evidence (rule 9). Stamps rise with the
//! slots, so that a match whose slot lies below that of the match before is evidence against the stamp of that one (rule 7).
//!
//! What a search reads is bounded where the volume was settled and nobody else writes: with m matches at most
//! `256 + 8,224 * (m + 1)` reads, and four for each cell of their documents, however many documents there are.
//!
//! Stands on `posting_list` (the search of a list), `commit_record` (stamps and states of slots), `document_store` (reading
//! a document) and `recovery_engine` (settling). Begin with `span.rt`; specs/Spans.antt says how a search may end, and
//! why.
#![tactic(auto)]

mod found;
mod matching;
mod postings;
mod span;
mod stamped;

pub use document_store::Text;
pub use found::TimeMatch;
pub use span::{CELL_READS, SPAN_READS, TURN_READS, between};
