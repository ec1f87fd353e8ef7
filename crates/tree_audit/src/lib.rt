//! Whether the tree of identifiers and the pointers of the posting lists keep their rules.
//!
//! This is a part of an audit, over kept cells and the log of rules 1 to 3. The tree begins at the root, and each child
//! cell of a node leads to a node one level below. An identifier goes down by the half bytes of its SHA-256, one a
//! level, and its document's bucket stands in the first node of this path where the place was free:
//!
//!     rule 11    buckets of nodes        names a live slot, has the fingerprint of its document's identifier, and
//!                                        stands on this identifier's path
//!     rule 12    child cells of nodes    stands under a written bucket, and leads to cells of a slot whose journal has
//!                                        it, which nothing else uses, and to which no lower child cell leads
//!     rule 14    done cells              the slot's document is found by its identifier, and no lower slot's is
//!
//! Of the volume of 8 slots and 2 lists that holds `a` in slot 0, with the root at 548 and the edge at 584:
//!
//!     digest of `a`        ca 97 81 ..: its path goes by bucket 12 of the root, which is cell 560
//!     rule 11, cell 560    names slot 0, which is live, with ca978112ca1bbd    else broken at 560
//!     rule 11, cell 561    blank; the same bucket there is beside the path     else broken at 561
//!     rule 12, cell 576    blank; no slot has cells for a node yet             else broken at 576
//!     rule 14, cell 6      560 is the bucket of slot 0                         else broken at 6
//!
//! Nobody says that the tree is a good one: child cells may lead in a circle, so that a node stands at many levels, and
//! nodes may meet. What rules 10 to 12 ask of a node is the same at each of its levels, but for the last one, below which
//! there is none. So `nodes_of` finds each node once, and marks level after level which of them it has, by the ways of
//! the child cells that lead from one to another. Since nodes may meet, what is found at one of them is joined with what
//! was found before by `log_audit::lower_of`. What meets a node is found by bisection, among the rising numbers of where
//! nodes and blocks begin.
//!
//! A document stands on the volume that cell 0 states. So who asks about documents shows first that cell 0 states this
//! volume. Rules 11 and 14 need that rule 4 is kept: then an identifier is known by the first cells of its document, and a
//! bucket costs no reading of a body. Rule 12 needs rules 1 and 5: the targets of a journal rise, so that the copy of a
//! child cell is found by bisection.
//!
//! Stands on `log_audit`, `slot_audit` and `list_audit`, on `document_store` for identifiers, and on
//! `volume_meaning` for digests and their half bytes. Begin with `nodes.rt`, then `buckets.rt`. Rule 10, of pointers, is in
//! `pointers.rt`: which blocks a pointer's target meets is asked as it is asked of nodes.
#![tactic(auto)]

mod buckets;
mod child_cells;
mod children;
mod documents;
mod leads;
mod looks;
mod marks;
mod nodes;
mod occupied;
mod paths;
mod pointers;
mod rows;
mod spans;
mod trails;
mod ways;

pub use buckets::first_broken_bucket;
pub use children::first_broken_child;
pub use nodes::{TreeNodes, nodes_of};
pub use pointers::first_broken_pointer;
pub use trails::first_broken_path;
