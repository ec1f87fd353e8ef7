//! The tags of a body's words, each in its list: what an index keeps of a document.
//!
//! A **tag** is the first six bytes of the SHA-256 of a term; the number in the next four, modulo the number of lists, is
//! its list. A document's distinct tags of one list, in rising byte order, have the ordinals 0, 1 and so on, at most
//! 256 of them. Of 2 lists:
//!
//!     term     SHA-256 begins            tag             list
//!     hello    2cf24dba5fb0 a30e26e8     2cf24dba5fb0    0
//!     world    486ea46224d1 bb4fb680     486ea46224d1    0
//!     foo      2c26b46b68ff c68ff99b     2c26b46b68ff    1
//!
//!     `hello world foo hello`            list 0, ordinal 0 of 0 to 1, tag 2cf24dba5fb0
//!                                        list 0, ordinal 1 of 0 to 1, tag 486ea46224d1
//!                                        list 1, ordinal 0 of 0 to 0, tag 2c26b46b68ff
//!
//! A list and a tag together are eight bytes, and so one number, the tag's key, which rises by list and then by tag:
//! 00002cf24dba5fb0, 0000486ea46224d1, 00012c26b46b68ff. `postings` sorts these keys, drops those that stand twice, counts
//! those of each list, and gives each its ordinal.
//!
//! Most words have come before, and then the digest is not made again: `KnownKeys` holds keys of words, of one document's
//! or of those of many. Whoever makes the postings of many documents hands it on from one to the next.
//!
//! **In an index** a posting has a list and a key of its own: 256 times the document's slot, plus the ordinal. On a volume of stamped
//! documents there is one more, in the time list, which is behind the lists of words: its key is the stamp, in seconds,
//! and its tag names the slot. So `document_postings` gives of this body in slot 258, stamped with second 1000:
//!
//!     list 0    key 66048    last 1      tag 2cf24dba5fb0
//!     list 0    key 66049    last 1      tag 486ea46224d1
//!     list 1    key 66048    last 0      tag 2c26b46b68ff
//!     list 2    key  1000    last 255    tag 000001020000
//!
//! Stands on `word_reader` for terms and on `volume_meaning` for digests, whose `specs/Postings.antt` says which postings
//! a document has. Begin with `digests.rt`, then `known_keys.rt`, `rows.rt` and `listing.rt`; `specs/Listing.antt` says what an answer
//! means.
#![tactic(auto)]

mod digests;
mod keys;
mod known_keys;
mod laws;
mod listing;
mod rows;
mod short_word;

pub use digests::{list_of, tag};
pub use known_keys::KnownKeys;
pub use laws::too_many_is_one;
pub use listing::{ListedPosting, document_postings, document_postings_by};
pub use rows::{MAX_TAGS, Posting, postings};
