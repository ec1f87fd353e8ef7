//! How a volume grows by a document: the cells that an ingest writes, that each moment of it is sound, and what a plan
//! owes so that the volume is settled afterwards.
//!
//! An ingest puts its cells in five **phases**, each sure before the next begins. On the small volume, with the
//! document `a` and the body `hello world`:
//!
//!     reserve    cell 4           cells 580 to 583 are slot 0's
//!     store      580; 581 to 583  the document; the journal: copies of three index cells
//!     commit     cell 5           from here on the document counts as stored
//!     apply      36, 37, 560      the index cells that the journal names
//!     finish     cell 6           slot 0 is done
//!
//! An image that was left in any of them, whatever part of that phase is written, is sound: it holds the old documents
//! where the outcome cell is blank, and the new one besides where it is written (`ingest_leaves_sound`).
//!
//! A **plan** is well made where its document is right, its journal is in order and tiles its blocks, and the lists and
//! the tree keep their shapes (`IsWellPlanned`). Then the image with all its cells is settled and has one document more
//! (`plan_is_settled`, `plan_adds_one`). The shape of a list, and of the tree, is said for itself, with a law for each
//! way of adding one cell. The **need** of a document is the number of cells that its plan takes.
//!
//! There is no code here, only laws. The definitions are in specs/: `Ingesting` (phases), `ListShapes`, `TreeShapes`,
//! `Filling` (plans), `Needs`, in this order.
#![tactic(auto)]

mod laws;

pub use laws::{
    ingest_leaves_sound, last_bucket_is_same, need_is_bounded, need_is_one, nodes_have_one_level,
    nodes_have_one_way, phases_leave_sound, plan_adds_one, plan_is_settled, plan_leaves_sound,
    rooted_apart, rooted_wider, rooted_with_child, settled_listed, settled_rooted, settled_trails,
    well_apart, well_wider, well_with_entry, well_with_jump,
};
