//! Reads the log of a volume: which layout cell 0 states, which state a slot is in, and where the log ends.
//!
//! The log has four cells for each slot. Three of them give its state. The fourth is spare; if documents
//! are stamped, it holds the stamp. Take the volume of 8 slots and 2 lists on 1,000 cells with one
//! document, in slot 0:
//!
//!     cell 0   volume, 1,000 cells     `open` answers 8 slots, 2 lists, version 1
//!          4   reserve 580, 4      \
//!          5   commit 13, 3         |  slot 0: `slot_state` answers Done, 580, 4 cells, 13 bytes, journal 3
//!          6   done 0              /           `parts`: no blocks; document at 580, 1 cell; journal at 581, 3 cells
//!          8   blank               \
//!          9   blank                |  slot 1: Unused, and `horizon` answers 1
//!         10   blank               /
//!
//!     unused --reserve--> reserved --commit--> committed --done--> done
//!                             \----abandon---> abandoned
//!
//! Any cell may be a forgery. If the cells of a slot make no state, the call names the first one that is
//! wrong: a reserve cell by rule 1, an outcome cell by rule 2, a done cell by rule 3. Suppose somebody
//! writes an abandon cell into cell 9. Then slot 1 is given up but reserves nothing, so cell 9 breaks rule
//! 2. If documents are stamped, a commit cell without a stamp beside it breaks rule 2 as well: here cell 5,
//! if cell 7 holds no stamp.
//!
//! Cells are read one after another, and somebody else may write meanwhile. So an answer speaks of two
//! images. What it says is written stands when the call ends. What it says is blank, a missing stamp too,
//! was blank when the call began. What it says about its own numbers, such as that the cells of a slot lie
//! in the pool, holds for every device, even one that cannot tell what it holds.
//!
//! The end of the log is found by halving, without reading every slot. A horizon is a free slot behind a
//! taken one. The last slot is read first, so one read shows that a log is full. With slots 0 to 4 taken:
//!
//!     slot 7   free      the horizon is one of 0 to 7
//!          3   taken     one of 4 to 7
//!          5   free      one of 4 to 5
//!          4   taken     5
//!
//! If nobody else has ever written, this is the only horizon, since slots are taken in order. Otherwise
//! there may be free slots before it and taken ones behind it.
//!
//! Reads at most: `open` and `stamp_of` 1, `slot_state` 3 in one row, or 4 if documents are stamped, `horizon` and
//! `end_of_log` 26. `parts` reads none, nor do `slot_of_row` and `stamp_of_row`, which are handed a slot's cells, and
//! `done_stamp` and `cells_of_slot`, which are handed their bytes: who goes over many slots asks `done_stamp` first.
//! `end_of_log` also hands over the last reserve cell. `slot_state_of` goes on from such a cell: it saves one read, and
//! never answers Unused. Nothing takes memory.
//!
//! Stands on `volume_meaning` and `tamper_rules`, which have the words, and on `worm_device`, which has the
//! views. Begin with `slot.rt`. `specs/States.antt` says what its answers mean.
#![tactic(auto)]

mod done_row;
mod laws;
mod log_end;
mod opening;
mod partition;
mod reservation;
mod slot;
mod slot_bytes;
mod slot_cells;
mod slot_parts;
mod slot_row;
mod stamp_cell;
mod used_slot;

pub use laws::{a_slot_has_one_state, no_state_breaks_a_rule};
pub use log_end::{LogEnd, end_of_log, horizon};
pub use opening::{OpenRefusal, open, volume_of};
pub use partition::Parts;
pub use reservation::Reservation;
pub use slot::{SlotState, slot_state};
pub use slot_bytes::{SLOT_BYTES, cells_of_slot, done_stamp};
pub use slot_parts::{document_cells, parts};
pub use slot_row::{slot_of_row, stamp_of_row};
pub use stamp_cell::stamp_of;
pub use used_slot::slot_state_of;
