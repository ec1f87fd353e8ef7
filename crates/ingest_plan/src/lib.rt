//! Plans what an ingest adds to the index of a volume, over a device that is only read: postings, each in its list, and a
//! bucket, where the path of the identifier ends.
//!
//! On the volume of 8 slots and 2 lists the document `a` with the body `hello world`, in slot 0:
//!
//!     the body's words       hello, world
//!     their postings         list 0: key 0, tag 2cf24dba5fb0, and key 1, tag 486ea46224d1
//!     where they go          cells 36 and 37
//!     the bucket             cell 560: slot 0, fingerprint of `a`
//!     the pool               580: no block and no node was taken
//!     the journal            copies of these three cells
//!
//! **One after another.** Each insertion finds what the ones before have planned, and their trails go on. So after a row
//! of insertions over one view and one pool each posting has its trail, and what is planned is what was planned before
//! and what the row has added (`AreInserted`). Postings come by list and key, so that keys rise in each list; a list
//! that no posting has gone into yet is as it was. Where nobody else writes, and all lists stood as they should before,
//! they do so behind the row, and its postings cost what they must; and what the row has added are its postings, in
//! blocks of their lists, and pointers from such blocks to others of the same list (`specs/Standing.antt`).
//!
//! **Each list has a bound of its own**, below which its keys lie and which the row's keys there are not below: of slot 3's
//! postings 768 in a list of words, and the stamp in the time list. Behind the row any bounds past the row's keys will
//! do (`HasKeysBetween`).
//!
//! **The cost** of the whole index is the number of cells that are planned and of those that the pool gave: 1, 2 or 258
//! for a posting, and 1 or 34 for the bucket (`IndexStandsAtCost`, `StandsAtCost`). In the picture it is 3. New blocks
//! begin at the edge and may pass the device's end, so that the need is known also where it is too great.
//!
//! **Once each planned cell stands, the document is kept**, whatever else is written: each of its postings has a trail, and
//! its slot has a hash trail, where its document stands in the slot and the path of its identifier is passed
//! (`KeepsDocument`). That holds on any device, whoever else writes while it is planned.
//!
//! **Evidence is licensed**: it comes where no list gets too many tags, stands on the device, and its rule is broken there
//! where nobody else wrote, and the slot and the edge are a horizon and an edge of the image (`PlanNamesCell`).
//!
//! Stands on `word_reader` and `term_tags`, which give the postings, and on `jump_insertion` and `hash_tree`, which
//! insert one entry each. Begin with `plan.rt`, then `whole.rt` and `rows.rt`; `specs/Readiness.antt` says what must be so
//! before, `specs/Planning.antt` what a plan means, `specs/Indexes.antt` and `specs/Rows.antt` what is planned for a whole
//! index and for a row of postings.
#![tactic(auto)]

mod journal;
mod laws;
mod place;
mod plan;
mod rows;
mod whole;

pub use journal::copies_of;
pub use laws::count_is_one;
pub use place::{IndexPlace, PathEnd};
pub use plan::{PlannedIndex, plan_index};
pub use rows::insert_postings;
pub use whole::insert_document;
