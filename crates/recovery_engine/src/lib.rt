//! Settling: what a crash left half done is put right before anything else is done.
//!
//! A crash leaves at most one slot half done, the last one of the log. `settle` looks at it, and at the slot before:
//!
//!     the last slot is    settling puts                                        and answers
//!     abandoned or done   nothing                                              Nothing
//!     reserved            its abandon cell; sync                               Abandoned
//!     committed           each journal cell at its target; sync; done; sync    Completed
//!
//! Before it trusts any of this it makes sure what stands, by a first sync, and checks that the slot follows those
//! below it and that its journal asks for nothing but index cells. A cell that is out of place is named, with the rule
//! that it breaks. No memory is taken, and it may be cut short anywhere and begun again. The slots before these two are
//! not looked at, so that settling costs the same on a long log: the last slot is the one below the horizon that a
//! bisection finds, and where it has ended 64 reads are enough.
//!
//! `apply_journal` and `finish` are the last two phases, which an ingest shares.
//!
//! Cells are put onto a device in phases, each of them sure before the next begins: `put.rt` and `row.rt`, which an
//! ingest goes by, too.
//!
//! Stands on `commit_record`, which reads the log. Begin with `settling.rt`; `specs/Settling.antt` says how settling may
//! end, and what a crash leaves of it.
#![tactic(auto)]

mod ending;
mod journal;
mod laws;
mod looks;
mod ordered;
mod put;
mod row;
mod settling;

pub use ending::{finish, journal_of};
pub use journal::{Journal, apply_journal};
pub use laws::settling_keeps_states;
pub use put::{Blame, Put, put_cell};
pub use row::{put_one, put_row};
pub use settling::{Ready, Step, settle};
