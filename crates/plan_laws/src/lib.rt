//! That a settled volume takes a document's index, and that one which was planned there is well made: with its cells
//! the volume is settled.
//!
//! On a settled volume whose horizon is slot 3 no list has a posting of slot 3 or a later one, since each posting is
//! one of a live slot's document. So a key of slot 3 is greater than each that is there, and 768 is a bound of each
//! list (`below_slot`):
//!
//!     list 0     keys 0, 257, 512        a key of slot 3 is 768 or more
//!     list 1     keys 1, 256             768 is greater, too
//!
//! No block of a list meets one of another, and no node meets a block: a pointer or a child cell leads to cells that no
//! other's do, and first blocks and the root lie side by side. With the shapes and trails that a settled volume has,
//! that is all that planning an index asks of lists and tree (`settled_indexes_stand`). Its postings go into blocks of
//! their lists or into new ones, and so leave the tree alone; its bucket goes into a node or a new one, and so leaves
//! the lists alone. Behind it they stand as before, now with keys of slot 3, as the index of slot 4 asks
//! (`index_keeps_standing`).
//!
//! Planning gives cells, what they add to lists and tree, and where the pool stands behind them. This crate takes that
//! together, with a document and its slot, into the one thing that the laws of `ingest_laws` ask for:
//!
//!     the slot is at the horizon, its cells begin at the edge     slot 0, cells 580 to 583
//!     new blocks and a new node, then the document, the journal   none; 580; 581 to 583
//!     the journal copies each planned cell, by rising numbers     postings in 36 and 37, a bucket in 560
//!
//! So `plan_is_settled`, `plan_leaves_sound` and `plan_adds_one` hold of it: the volume is settled with the plan's
//! cells, it is sound at each moment until then, and it has one document more. And it takes exactly the document's need
//! (`answer_is_need`), which is so also where the device has no room for it.
//!
//! There is no code here, only laws. Stands on `ingest_laws`, which has the shapes of a settled volume and says what a
//! well made plan is, and on `ingest_plan`, which says what planning adds and answers. Begin with specs/Standing.antt,
//! for lists and tree, and specs/Laws.antt, for plans.
#![tactic(auto)]

mod indexes;
mod laws;

pub use indexes::{index_keeps_standing, settled_indexes_stand};
pub use laws::{answer_is_need, answer_is_well, plan_is_well};
