//! Copies a volume to new media: its documents, in order, with their identifiers, bodies and stamps.
//!
//! Media wear out, and records are to be kept for longer. A copy of a volume in which slot 0 was given up, onto a blank
//! device:
//!
//!     source    slot 0  given up          target    slot 0  `a`, hello world
//!               slot 1  `a`, hello world            slot 1  `b`, hello
//!               slot 2  `b`, hello
//!
//!     `copy` answers 1 to 0, and 2 to 1
//!
//! **How.** The source is audited. A target whose cell 0 is blank is formatted, with the numbers that are asked for and the
//! version of the source. Then each document is read into memory, one at a time, and ingested.
//!
//! **A target that is a volume** has to be one of these numbers. It is audited too, and its documents are compared with the
//! first ones of the source; the rest is ingested. So a copy that was stopped is run again, and so is one whose source
//! has grown since.
//!
//! **What is promised**: whatever somebody else writes, a refusal names its cause on the device that it comes from, and the
//! documents of each pair that is answered stand on both devices and say the same (`HoldSame`); a copy that ends well has
//! a pair for each document that stood in the source at the beginning (`LeavesNoneOut`). Where nobody else writes, one
//! that ends well leaves a settled target, all of it sure, with just the documents of the source in order; and each
//! document that was kept in the source at the beginning is kept there (`HasCopied`). An ingest is refused only behind
//! pairs that agree, and of the next document (`IsNextToCopy`). Whatever a crash
//! leaves of either device is blank or sound, at each moment and at every answer (`IsSoundThroughout`), and what it leaves
//! of the target holds the first documents of the source (`IsFirstThroughout`). Where no call fails besides, a copy is
//! done, or refused because the target is another volume, or lacks the room, or for want of memory (`IsCopyUnhindered`). **Not
//! claimed**: that a target with fewer lists or cells has room.
//!
//! Stands on `volume_audit`, `document_store` (reading) and `ingest_engine` (writing), and on `host_ports`: `copy_metered`
//! shows how many documents are copied. Begin with `copying.rt`; `specs/Copies.antt` says how a copy may end, and why.
#![tactic(auto)]

mod adding;
mod audited;
mod comparing;
mod copying;
mod laws;
mod moved;
mod refused;
mod stored;
mod target;
mod walking;

pub use copying::{copy, copy_metered};
pub use laws::pairs_are_one;
pub use moved::Moved;
