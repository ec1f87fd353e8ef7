//! What the cells of a volume mean: its layout, the state of a slot, its documents and their words, and its
//! index.
//!
//! Everything is said of an image, the cells that are written at one moment. It does not matter who wrote
//! them. Take the volume of 8 slots and 2 lists on 1,000 cells, with the document `a`, whose body is `hello
//! world`:
//!
//!     cell 0    volume             the layout: the pool begins at cell 580
//!     cell 4    reserve 580, 4     slot 0 reserves cells 580 to 583
//!     cell 5    commit 13, 3       its document has 13 stored bytes, in one cell, and its journal 3 cells
//!     cell 6    done 0             slot 0 is done
//!     cell 580  content            01 61 `hello world`: a length, the identifier, the body
//!
//! So `Stands 1000 image 0 "a" "hello world"` holds, and the words of the body are `hello` and `world`.
//! Slot 1 is the first that is free: 1 is the **horizon**. The cells of slot 0 end before 584, which is the
//! **edge**. If somebody else has written, an image may have several horizons and edges.
//!
//! The version of a volume decides two things. The first is its **rule of words**: in version 1 words are
//! made of bytes, and only A to Z have small letters; in later versions they are made of characters of any
//! script. The second is whether documents are **stamped**: in version 3 slot 0 has a document only if cell
//! 7, its spare cell, holds a stamp.
//!
//! A call that reads three cells reads them one after another, and somebody else may write meanwhile. So a
//! state is said of two images. What must be written is written in the later one; what must be blank was
//! blank in the earlier one. A fact about written cells alone still holds after more cells are written: the
//! laws here say so.
//!
//! A **trail** leads through the index to a posting of a document, and a **hash trail** to its bucket,
//! which names its slot. A document that stands is **kept** if it has a trail for each posting and a hash
//! trail. It then stays kept, whatever is written later. `path_laws.rt` explains trails, with examples.
//!
//! Apart from the laws there is little code: `rule_of`, a few numbers, what a posting and a bucket say, and
//! a digest with its parts. Stands on `cell_types`, and on libraries for SHA-256
//! and letters. Begin with `specs/Volumes.antt`, `Slots`, `Documents` and `Words`, in
//! this order; `WordValues` has examples of words. For the index go on with `Blocks`, `Postings`,
//! `HashPaths`, `Nodes`, `Keeping` and `Nearness`.
#![tactic(auto)]

mod blocks;
mod held_bucket;
mod index_digests;
mod laws;
mod limits;
mod nodes;
mod path_laws;
mod posting_fields;
mod posting_laws;
mod word_rules;

pub use blocks::{BLOCK_CELLS, ENTRY_PLACES, FIRST_POINTER, POINTER_PLACES};
pub use held_bucket::HeldBucket;
pub use index_digests::{digest_of, fingerprint_of, nibble_of};
pub use laws::{
    documents_are_one, documents_hold_on, lists_are_one, seen_further, stamps_are_one,
    stands_holds_on, words_are_one, words_by_value,
};
pub use limits::{MAX_BODY_BYTES, MAX_IDENTIFIER_BYTES};
pub use nodes::{NODE_BUCKETS, NODE_CELLS};
pub use path_laws::{
    fronts_rise, hash_trails_are_one, kept_are_apart, kept_holds_on, paths_hold_on,
    spans_are_apart, spans_cover, tags_are_one, trail_holds_on, trails_are_one,
};
pub use posting_fields::PostingFields;
pub use posting_laws::{keys_fit, near_is_one, postings_are_one, stamps_add_one};
pub use word_rules::{WordRule, rule_of};
