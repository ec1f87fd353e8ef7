//! Whether what each slot holds keeps its rules: its document, its journal and its blocks; and whether any cell is written
//! that no slot accounts for.
//!
//! This is the second part of an audit, over kept cells and the log of rules 1 to 3. A slot that is done has three
//! parts: blocks, the document, and last the journal, whose cells are copies of index cells, by rising targets. Once
//! the journal is carried out, each target holds the same as its copy:
//!
//!     rule 4     commit cells     the slot's cells spell a document of as many bytes as are stated
//!     rule 5     commit cells     each cell of the slot's journal is written
//!                journal cells    copies an index cell, a later one than the journal cell before does
//!     rule 6     journal cells    the target holds the same
//!     rule 7     any cell         is one that may be written: see `strays.rt`
//!     rule 15    commit cells     the slot's blocks and nodes tile its block part: see `tilings.rt`
//!
//! Of the volume of 8 slots and 2 lists that holds the document `a` in slot 0:
//!
//!     slot 0              reserves 580 to 583: no blocks, the document at 580, the journal from 581 on
//!     rule 4, cell 5      580 spells a document of 13 stored bytes           else broken at 5
//!     rule 5, cell 5      581, 582 and 583 are written                       else broken at 5
//!     rule 5, cell 582    copies cell 37, and 581 before it copies cell 36   else broken at 582
//!     rule 6, cell 583    copies cell 560, which holds the same              else broken at 583
//!
//! An answer is the least written cell at which the rule is broken. Commit cells lie below the pool and rise with the
//! slots; and reservations rise with the slots too, so a walk by slot and place meets journal cells in rising order.
//!
//! Stands on `log_audit` (what a check finds, the log, the slots that hold documents) and `document_store` (reading
//! one). Begin with `documents.rt`; `specs/Journals.antt` says what is asked of each place of a journal.
#![tactic(auto)]

mod back;
mod copies;
mod documents;
mod entries;
mod journals;
mod laws;
mod named;
mod places;
mod stamps;
mod stray_places;
mod strays;
mod table;
mod targets;
mod tile;
mod tilings;

pub use copies::target_at;
pub use documents::first_broken_document;
pub use entries::is_in_order;
pub use journals::first_broken_journal;
pub use laws::walks_tell;
pub use named::NamedCells;
pub use places::journal_place_of;
pub use strays::first_broken_stray;
pub use targets::first_broken_target;
pub use tile::{Tile, tile_at};
pub use tilings::first_broken_tiling;
