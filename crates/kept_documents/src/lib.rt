//! Whether a document is kept, by what a view shows: yes or no, on any image.
//!
//! A search names evidence where a cell on its way is out of order, and then leaves open whether what it was asked for
//! has a trail. Whoever judges what was handed to him has to know. Here a cell that is out of order ends the way like a
//! blank one, so the answer is no, and never evidence. Of the volume of 8 slots and 2 lists that holds the document `a`,
//! `hello world`, and in whose cell 38 somebody wrote sixteen bytes ff:
//!
//!     cell 36    key 0, last 1, tag of `hello`    `has_trail`: yes, in the front of the first block
//!     cell 37    key 1, last 1, tag of `world`    `has_trail`: yes, in place 1
//!     cell 38    ff ff ..                         of key 2 `has_trail`: no, the front ends before place 2
//!     cell 560   slot 0, fingerprint of `a`       `has_hash_trail` of slot 0 as `a`: yes
//!     slot 0     done, `a`, `hello world`         `is_kept` of slot 0 as `a`: 11 bytes
//!
//! **Yes is said of the image at exit, and no of the image at entry.** So no clause has a premise on what somebody else
//! writes meanwhile, and where nobody does, both are said of one image.
//!
//! A document is kept where it stands, its postings exist, each of them has a trail, and it has a hash trail. Each part
//! is asked in turn, and the first no is the answer. `is_kept` takes memory for the body and its words, and reads each cell
//! of the document once; `kept_document` is the same and hands on what was read. The others take no memory.
//!
//! Stands on `jump_block` (one block), `document_store` (documents), `word_reader` and `term_tags` (postings), and
//! `volume_meaning` (buckets and half bytes). Begin with `kept.rt`, and of trails with `trails.rt`; `specs/Kept.antt`
//! says what an answer means.
#![tactic(auto)]

mod buckets;
mod fault;
mod hash_trails;
mod indexed;
mod kept;
mod node_cells;
mod refuted;
mod rows;
mod stamps;
mod trails;

pub use fault::AskFault;
pub use hash_trails::has_hash_trail;
pub use kept::{KeptDocument, is_kept, kept_document};
pub use node_cells::{bucket_at, child_at};
pub use stamps::{SlotStamp, slot_stamp};
pub use trails::has_trail;
