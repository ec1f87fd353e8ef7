//! The posting lists of terms, as the join asks them: which slot is next, and has it the term?
//!
//! A posting's key is 256 times its slot, and its ordinal among the postings of its document in this list. These rise
//! with their tags, and each tells the greatest ordinal. On a volume of 8 slots and 2 lists, with the documents
//! `hello world` in slot 0 and `world` in slot 2, list 0 begins at cell 36:
//!
//!     cell 36    key 0      tag 2cf24dba5fb0    `hello` of slot 0, ordinal 0 of 0 to 1
//!     cell 37    key 1      tag 486ea46224d1    `world` of slot 0, ordinal 1
//!     cell 38    key 512    tag 486ea46224d1    `world` of slot 2, ordinal 0 of 0 to 0
//!
//!     world: next slot from 1    first key at or past 256: 512, which is slot 2
//!     world: has slot 0          key 0 is there, and tells 0 to 1; of these key 1 has the tag
//!     hello: has slot 2          key 512 is there, and tells 0 alone; it has another tag: no
//!
//! `next` and `land` go by no tag: a list has the postings of many terms. It vouches for the slot where the posting
//! that it comes to has the term's tag, and says so. Where it does not, **`has` decides**: it finds the slot's ordinal
//! 0, which tells how many there are, and where this one has another tag, it finds the term's among the others by
//! bisection.
//!
//! **What is not passed**: a slot of which the postings in the list, those of some body that has the term, have trails
//! from the list's first block. Whether this document stands there is not asked: so the slot of each kept document that
//! has the term is come to, and so is one whose document is broken. Whoever may only write blank cells can't take these
//! trails away. He may add postings: so a posting of the term whose slot is not done, or lies at or past the horizon,
//! is evidence (rule 9), and `has` vouches only for what it has read.
//!
//! **Looks at slots**: a slot's state is read where the list vouches for the slot as it comes to it (`land`), or where
//! it confirms that it has it (`confirm`). Where the document lies is kept then. So the slots that terms have in common
//! are answered as parts, and who reads their documents reads no state again. A rare term shares its list with postings
//! of other terms, a thousand times as many, whose slots are not looked at. `next`, which no join asks for, looks at
//! each.
//!
//! **Memory** is taken before: `SoughtTerms` holds each term's list and tag. `TermLists` is made of it over a view that
//! is lent to it, and making it can't fail: a constructor that answers a `Result`, or a view that is held by value,
//! would lose the device that was lent. For each list it keeps what is known of it from one search to the next, and a
//! ghost field says that what the view shows has it.
//!
//! **What it costs** is counted: how often a list was asked for its next slot, and how often whether it has one. The
//! slots of any one term's postings bound what a join asks for. An ask for a next slot makes at most 4,100 reads, and
//! one whether a list has a slot at most 36,868: nine searches of 4,096, and a look at the slot. So to gather the slots
//! that T terms have in common makes at most `T * (4,100 * (2 * m + 1) + 36,868 * m)` reads, where any one term's
//! postings are of m slots.
//!
//! Stands on `jump_index` (the search of a list), `term_tags` (tags and lists), `commit_record` (a slot's state) and
//! `document_store` (where its document lies), and implements `Lists` of `zigzag_join`. Begin with `joined.rt`, then
//! `next_slot.rt` and `has_slot.rt`, and `search.rt` and `live.rt` below, which serve each list, that of times too;
//! specs/Owing.antt says what must not be passed, and specs/Naming.antt what is evidence.
#![tactic(auto)]

mod has_slot;
mod joined;
mod laws;
mod live;
mod next_slot;
mod own_search;
mod reach;
mod search;
mod sought_term;
mod sought_terms;
mod term_lists;

pub use has_slot::HAS_READS;
pub use laws::kept_are_owed;
pub use live::{false_posting, live_part};
pub use next_slot::NEXT_READS;
pub use reach::Reach;
pub use search::find_in_list;
pub use sought_term::SoughtTerm;
pub use sought_terms::SoughtTerms;
pub use term_lists::TermLists;
