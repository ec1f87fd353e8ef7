//! One block of a posting list: its entries, its front, and the pointers that lead on.
//!
//! A block is 256 cells. Its entries stand at places 0 to 127 with rising keys, and behind them 15 pointers for each of
//! eight levels:
//!
//!     cell 804      entry 0       key 0
//!     cell 805      entry 1       key 256
//!     ..
//!     cell 931      entry 127     key 32512, the greatest
//!     cell 932      pointer (0, 1)                 for key 32513
//!     ..
//!     cell 962      pointer (2, 1)                 for keys 32768 up to 33023
//!     cell 963      pointer (2, 2)                 for keys 33024 up to 33279
//!     cell 1052     eight cells that stay blank
//!
//! **Which pointer** is for a key depends on its distance from the block's greatest key alone: written to the base 16
//! the distance has a first digit, at some level. Key 32,768 is 256 = 1 * 16^2 away.
//!
//! **The front** is the longest run of places from 0 on that hold postings with rising keys. Whatever is written into
//! blank cells, it stays and can only grow at its end. So a front that was verified once is kept (`KnownFront`), and a
//! later search in it reads some known places at most, and the places behind its end.
//! A row of 32 cells can be kept, too (`KeptRow`): what was found written in it stands, and of what was blank nothing is
//! concluded.
//!
//! Stands on `worm_device` (views), `volume_meaning` (what a front is) and `tamper_rules` (the rules' numbers).
//! `jump_index` walks from block to block. Begin with `fronts.rt`; `specs/Fronts.antt` says how a look ends.
#![tactic(auto)]

mod consulting;
mod entries;
mod fronts;
mod held_entry;
mod keeping;
mod kept_fronts;
mod kept_row;
mod key_spans;
mod known_front;
mod pointers;
mod row_fronts;
mod spans;

pub use consulting::first_from_known;
pub use entries::entry;
pub use fronts::first_at_least;
pub use held_entry::Entry;
pub use keeping::first_from_kept;
pub use kept_fronts::{KEPT_FRONTS, KeptFronts};
pub use kept_row::{KeptRow, next_in_rows};
pub use key_spans::span;
pub use known_front::{Front, KnownFront};
pub use pointers::{leads_nowhere, pointer, pointer_cell};
pub use spans::Span;
