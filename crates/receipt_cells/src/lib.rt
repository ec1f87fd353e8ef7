//! Lists the cells that a document's being kept rests on, and no others.
//!
//! Whoever has a receipt shows that a document is kept by the cells that it lists, and by nothing else. So these have
//! to be enough; and none should be listed that is not needed. Of the document `a`, `hello world` on the volume of 8
//! slots and 2 lists:
//!
//!     cell 0            the volume cell
//!     cells 4, 5, 6     its slot's reserve, commit and done cell
//!     cell 580          its stored bytes
//!     cell 36           the posting of `hello`: the trail is the front's first place
//!     cells 36, 37      that of `world`, in place 1: the front's places up to it
//!     cell 560          the bucket of its path
//!
//! Cell 38, were it written, would be listed for neither posting: a trail rests on no place behind its posting. Of a
//! block that a trail leaves, the whole front is listed, and the one jump cell that is taken.
//!
//! **Which cells** says `RestsOn`, of one cell after another, by what stands in the image and not by what is read.
//! **Just these**: `ListsJust` says that each of them is listed, that no other is, and that each has the value that
//! stands. **They are enough**: a list of just these cells keeps the document by itself, `lists_keep_alone`.
//!
//! It is asked first whether the document is kept (`kept_documents`). What is kept stays so, whatever is written into
//! blank cells, so the way to each cell is there when it is walked once more to list what stands on it. On the way
//! nothing has to be decided: where it ends early, nothing was kept, and the list counts for nothing.
//!
//! Stands on `kept_documents`, on `receipt_text` (listed cells), and on what a way leads through: `jump_block` and
//! `document_store`. Begin with `whole.rt`; `specs/Needed.antt` says which cells there are, and what a list of just
//! them is.
#![tactic(auto)]

mod bodies;
mod cells;
mod laws;
mod nodes;
mod path;
mod postings;
mod slots;
mod trails;
mod whole;

pub use laws::{kept_by_cells, lists_keep_alone};
pub use whole::list_kept;
