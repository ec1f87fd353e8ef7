//! Inserts a posting into a posting list over planned cells, so that a search finds it from then on.
//!
//! A list is a tree of blocks of 128 entries, whose keys rise. A full block leads on by pointers, and the distance of a
//! key from the block's greatest key alone says which pointer is for it. In a volume of 200 slots with one list, whose
//! pool begins at 1092 and is free, the first block is full:
//!
//!     block at 804    keys 0, 256 .. 32512, and no pointers
//!
//!     insert 32768    its distance 256 = 1 * 16^2 says pointer (2, 1), cell 962, which is blank, as all pointers are
//!                     cell 1092    posting 32768, the first of a new block
//!                     cell  962    a jump cell to 1092
//!     insert 33024    its distance 512 = 2 * 16^2 says pointer (2, 2), cell 963, which is blank
//!                     cell 1093    posting 33024, in the tail: the block behind the greatest written pointer
//!                     cell  963    a jump cell to 1092
//!     insert 33025    pointer (2, 2) leads to 1092, which has a blank entry
//!                     cell 1094    posting 33025
//!
//! So an insertion plans the posting and at most one pointer, and takes at most one block from the pool. It writes
//! nothing: it plans cells in an overlay, and sees those that insertions before it planned. Keys are inserted in rising
//! order. Each posting has a trail from then on, along cells that nobody can take back.
//!
//! **No cell is trusted.** Evidence is an entry out of order, a posting whose key is not below the new one, or a
//! pointer that leads nowhere or into cells that are planned for something else. It stands below what is planned, and
//! whoever names it has planned nothing. A list that stands as it should, with keys below the new one, gives none as
//! long as nobody else writes (`InsertPostingEnds`).
//!
//! **Not claimed**: that there is memory. Whoever is refused gives up all that was planned.
//!
//! Stands on `cell_pool` for blocks and planned cells, on `jump_block` for a block and its pointers, and on
//! `ingest_laws` for the shape that a list keeps. Begin with `insertion.rt`. `specs/Readiness.antt` says what may be
//! planned before, `specs/UnderWay.antt` what holds on the way, by a record for each step, `specs/Inserting.antt` what an
//! insertion does, and `readiness.rt` what goes on to the next.
#![tactic(auto)]

mod entries;
mod hops;
mod insertion;
mod laws;
mod meeting;
mod puts;
mod readiness;
mod spans;

pub use insertion::insert;
pub use laws::{
    evidence_is_licensed, insertions_cost_their_need, insertions_keep_trails, others_stand,
};
pub use readiness::{nothing_is_touched, others_stay_untouched, trails_go_on, untouched_is_ready};
pub use volume_meaning::PostingFields as NewEntry;
