//! The cells that a volume is made of, and the refusals that calls end with.
//!
//! A cell has sixteen bytes and is written once. Sixteen zeros are a blank cell. Two sorts of written cells
//! mean something. A record cell has a kind, a body and an address, which is the number of the cell where
//! it counts:
//!
//!     cell 4    02  00000244 00000004 000000  00000004
//!               kind  start    length           address     slot 0 reserves four cells, 580 to 583
//!
//! A content cell holds bytes of a document, and has no address:
//!
//!     cell 580  1d  01 61 68656c6c6f20776f726c64  0000
//!               13 bytes: the length of the identifier, `a`, `hello world`; then zeros
//!
//! `encode` makes the cell of a record, and `decode` gives the record back. For any other sixteen bytes it
//! answers `None`. Who knows which kind a cell has to be asks for that kind, which is cheaper: `posting_at`,
//! and for the cells of a slot `decode_reserve`, `decode_commit`, `decode_done` and `decode_stamp`. No cell
//! is both a record and content. Nothing here reads or writes a device. The calls of `memory` take memory, each by
//! std's of its name, and want of it is a value that only `memory` makes.
//!
//! Stands on `byteorder`, for numbers in bytes, and `thiserror`, for the lines of refusals. Begin with
//! `cell.rt`. Then `specs/Records.antt` says what each kind holds, and when it is well-formed.
#![tactic(auto)]

mod cell;
mod codec;
mod content_cell;
mod geometry;
mod held_bytes;
pub mod memory;
mod record_cell;
mod refusal;
mod slot_codec;

pub use cell::Cell;
pub use codec::{address_of, decode, encode, no_record_is_content, posting_at, records_are_one};
pub use content_cell::{content, content_of, contents_are_one};
pub use geometry::{
    FIRST_VERSION, FOLDED_VERSION, Geometry, MAX_CELLS, MAX_LISTS, MAX_SLOTS, NEWEST_VERSION,
    STAMPED_VERSION, Volume, parts_are_apart, parts_cover_the_device,
};
pub use held_bytes::Content;
pub use record_cell::{MAX_STORED_BYTES, MIN_STORED_BYTES, RecordCell, is_well_formed};
pub use refusal::{CopyRefusal, Evidence, Fault, NoMemory, Refusal, breach};
pub use slot_codec::{decode_commit, decode_done, decode_reserve, decode_stamp};
