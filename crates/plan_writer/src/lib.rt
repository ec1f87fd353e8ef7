//! A plan put onto a settled volume: the cells of one document and of its index, in five phases.
//!
//! A plan reserves cells of the pool behind the edge, `[blocks][document][journal]`, and the journal holds a copy of
//! each index cell that is to be written. Into slot 0 of a volume of 8 slots and 2 lists on 1,000 cells, a document of
//! one cell and a journal of two go like this:
//!
//!     reserve    write cell 4; sync                     slot 0 has cells 580 to 582
//!     store      write cells 580, 581 and 582; sync     the document and its journal are on the device
//!     commit     write cell 5; sync                     they count
//!     apply      write the journal's targets; sync      the index leads to the document
//!     finish     write cell 6; sync                     slot 0 is done: no crash takes the document
//!
//! On a volume of stamped documents the document's stamp is stored first, in the slot's spare cell, here cell 7.
//!
//! Before the first phase the slot's outcome, done and spare cells, and all cells that it will reserve, are looked
//! at: each has to be blank. Each phase is sure before the next begins, so no crash leaves a commit cell without the
//! stamp, the whole document and the journal. Where somebody else has taken a cell, it is named with the rule that it
//! breaks.
//!
//! No memory is taken. Stands on `recovery_engine`, which puts cells in phases and whose last two phases it shares. Begin with
//! `plan.rt`; specs/Planned.antt says which cells a plan asks for.
#![tactic(auto)]

mod blank;
mod laws;
mod plan;
mod put;
mod steps;

pub use laws::{commits_follow_documents, crashes_leave_whole_slots, slots_keep_states};
pub use plan::Plan;
pub use put::put_planned;
