//! What each command on a volume does: it takes what it needs from the source, calls the engine, and puts out a text.
//!
//! On a blank device, with `hello world` in the source at the `ingest`:
//!
//!     format 8 2      makes a volume of 8 slots and 2 lists                        formatted
//!     ingest a        takes the body to the source's end, stores it and its index  acknowledged 0
//!     find hello      searches the documents: slot 0, identifier `a`, 11 bytes     0 a 11
//!                                                                                  1 found
//!     lookup a        looks for the document, and puts out its body                hello world
//!     recover         settles the volume                                           nothing to settle
//!     audit           checks each rule at each written cell      sound: 1 done, 0 abandoned, 11 written cells
//!     receipt a       lists the cells that show that the document is kept          receipt 0 a ..
//!     check           checks the receipt that the source gives                     kept 0 a 11
//!
//! On a volume of stamped documents, as `format 8 2 3` makes it, an `ingest` is given the seconds of its stamp, which
//! are past those of each document before, as in `ingest a 1000`; elsewhere it is given none. There a `between 0 1000`
//! searches the documents whose stamps lie in that span of time: `0 a 1000 11` and `1 found`.
//!
//! A `find`, a `between` and a `receipt` make their text before the first byte goes out, and a `lookup` checks the
//! document whole before that. What is taken from the source is at most as long as a body may be, and in a `check` as
//! the text of a receipt. A `receipt` settles the volume first, and a `check` writes nothing at all; what the one has
//! put out the other accepts from then on (`receipts_are_ready`).
//!
//! The commands that leave the device alone, `replay` and `exercise`, are in `record_top`, which also says what a crash
//! leaves of each, and which documents stand behind it: the words for that are here, in specs/Steadiness.antt.
//!
//! Stands on `ingest_engine` and `recovery_engine`, which write, on `record_query` and `time_index`, which search and
//! look up, on `volume_audit`, on `receipt_text` and `receipt_check`, on `command_laws`, on `command_line`, which puts
//! out lines and texts, and on `host_ports`. Begin with `find.rt` and specs/Finding.antt.
#![tactic(auto)]

mod audit;
mod between;
mod body;
mod check;
mod find;
mod format;
mod ingest;
mod laws;
mod lookup;
mod outcome;
mod receipt;
mod recover;

pub use audit::audit_volume;
pub use between::find_between;
pub use body::{BodyFault, MAX_RECEIPT_BYTES, take_input};
pub use check::check_source;
pub use find::find_documents;
pub use format::format_device;
pub use ingest::ingest_body;
pub use laws::receipts_are_ready;
pub use lookup::lookup_document;
pub use outcome::Outcome;
pub use receipt::put_receipt;
pub use recover::recover_device;
