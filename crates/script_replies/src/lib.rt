//! What a script's events begin with and are answered by: a command begun on a device in memory with its plan, the replies
//! to the events, and the lines that tell them.
//!
//! Each event has one reply and each reply one line: the event's number from 1, the status, which is 0 for an answer,
//! and what is answered. A format, an ingest that the device cut short, a crash that left one of two cells, and what
//! came then:
//!
//!     Formatted                       1 0 formatted
//!     Refused(DeviceFault)            2 5 refused
//!     Crashed { kept 1, unsure 2 }    3 0 kept 1 of 2
//!     Settled(Completed(0))           4 0 slot 0 completed
//!     Found([the match in slot 0])    5 0 found 0
//!
//! Evidence of tampering is told whole: `2 4 tampered 2 5 04000000000000000000000000000005` says that cell 5 breaks rule
//! 2, and what stands there.
//!
//! Stands on the crates whose answers replies are: `record_query`, `volume_audit`, `recovery_engine`, `worm_memory`; on
//! `script_events` for `Sequence` and the plans of events, and on `hex`. Begin with `reply.rt`; `specs/Lines.antt` says what
//! each line is. `beginning.rt` says how a command begins with its plan.
#![tactic(auto)]

mod beginning;
mod laws;
mod reply;
mod text;

pub use beginning::{MAX_REPLAYED_CELLS, SPARE_CHANGES, begin_by_hand, begin_with};
pub use laws::one_line_each;
pub use reply::Reply;
pub use text::text_of_replies;
