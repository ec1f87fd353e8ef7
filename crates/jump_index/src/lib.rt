//! Finds the first entry of a posting list at or past a key, on any image, and passes none that has a trail.
//!
//! A list is a tree of blocks of 128 entries. A full block leads on by jump pointers, and the distance of a key from
//! the block's greatest key alone says which pointer to take. Here the first block is full, and one pointer is set:
//!
//!     block at 804    keys 0, 256 .. 32512; pointer (2, 1), for keys 32768 up to 33023, leads to 1092
//!     block at 1092   keys 32768, 32769
//!
//!     find 32769      804 is full, 32769 lies in span (2, 1): cell 962 leads to 1092, which has the key
//!     find 32800      the same way, and 1092 has no key at or past it; the pointers behind (2, 1) are blank: none
//!     find 33100      its pointer (2, 2) is blank, and so are those behind it: none
//!
//! **A trail** of a posting is the walk of its key along written cells from the list's first block. Who may only write
//! blank cells can't cut it off. So what a search finds is no greater than any key at or past the asked one that has a
//! trail, and where the asked key has one, it is that entry. `None` says that no such key has a trail.
//!
//! **No cell is trusted.** An entry out of order is evidence, and so is a pointer that leads nowhere: out of the
//! bounds, or to a block with no key in its span. A blank pointer says nothing of the later spans, which are tried in
//! turn; the first written one ends the search.
//!
//! The level of a span falls at every hop, so a walk has at most nine blocks, and a search makes at most 4,096 reads.
//! A caller that searches again and again keeps what is known (`KeptSearch`), and few cells are read twice: a search looks
//! first where the pointers of the one before lead to, in a row of 32 cells that is kept.
//!
//! Stands on `jump_block` (one block), and on `tamper_rules` for what a broken rule is. Begin with `search.rt`;
//! `specs/Searches.antt` says what an answer means, and `specs/Keeping.antt` what is kept.
#![tactic(auto)]

mod bounds;
mod here;
mod kept_hops;
mod kept_search;
mod later;
mod looked;
mod near;
mod search;

pub use bounds::Bounds;
pub use kept_search::KeptSearch;
pub use search::{find_geq, find_geq_from_kept};
