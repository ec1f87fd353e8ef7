//! The bytes of a document part, read cell by cell, and the cells that bytes are stored in.
//!
//! A part is a row of content cells, each of which holds 15 bytes, and the last one those that are left. A part of 31
//! bytes takes three cells, here from cell 600 on:
//!
//!     cell 600   1f  b0 b1 .. b14      15 bytes      place 0
//!          601   1f  b15 b16 .. b29    15 bytes      place 1
//!          602   11  b30 00 .. 00       1 byte       place 2
//!
//! `content_cells` makes the three cells of the bytes. A `Reader` gives the bytes again, one after another: it reads
//! cell 600 when it is asked for b0, cell 601 for b15, cell 602 for b30, each once, and after b30 there is none.
//! `next_byte` does the same over a `Position`, for a caller that reads several parts over one view. `next_row` gives
//! more at once: what is left of a cell that was begun, or else the next 1,024 cells, which it reads in one call; here
//! all 31 bytes of the part, from its start on.
//!
//! No cell is trusted. A cell that is blank, that is no content cell, or that holds another number of bytes than its
//! place asks for, is `Broken`; a read that failed is a `ReadFault`, and a count of faults rose. After either a reader
//! gives nothing more. What was given is the front of what the cells spell, on every image.
//!
//! Reading takes no memory. Stands on `volume_meaning` for the words, on `worm_device` for views, and on `cell_types`
//! for content cells. Begin with `position.rt`; `specs/Reading.antt` says what was read.
#![tactic(auto)]

mod cells;
mod piece;
mod position;
mod reader;
mod row;

pub use cells::{CONTENT_BYTES, cells_for, content_cells, push_content};
pub use piece::{ContentFault, read_piece};
pub use position::{Position, next_byte, next_row, read_byte};
pub use reader::Reader;
pub use row::{ROW_BYTES, ROW_CONTENT};
