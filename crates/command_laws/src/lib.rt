//! What each command over a device leaves from a steady device on, where nobody else writes; what a query tells then;
//! and when a command has to be done.
//!
//! A device is steady where whatever a crash leaves of it is blank or sound. From there on, and while nobody else
//! writes:
//!
//!     format, settle, find, look-up, audit    leave the documents that were held, and a steady device
//!     find, look-up                           tell of just those documents
//!     each                                    names no tampering, and is refused for a cause that stands
//!
//! Ingests are in `crash_laws`. There is no code here, only laws. They speak of states of the device alone: a program
//! that reads its words and puts out lines (`record_top`), and a replay of events on a device in memory
//! (`hostile_replay`), stand on them alike.
//!
//! Stands on `crash_laws`, which says what a crash leaves, and on the engines: `ingest_engine`,
//! `record_query`, `volume_audit`. Begin with specs/Telling.antt; specs/Laws.antt has the laws' sentences.
#![tactic(auto)]

mod laws;

pub use laws::{commands_leave_what_is_held, finds_tell_what_is_held};
