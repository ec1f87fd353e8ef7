//! Receipts as texts: which text spells a receipt, and where a text breaks the form.
//!
//! A receipt names a document by its slot and its identifier, and lists cells that are to show that it is kept, so that
//! somebody who has the device can compare them with what stands there. The document `a` of slot 0:
//!
//!     receipt 0 a
//!     0 0101000000080002000003e800000000       the volume
//!     4 .. 6                                   the slot's log cells
//!     36, 37, 560                              its postings and its bucket
//!     580 1d016168656c6c6f20776f726c640000     its stored bytes
//!     end 8
//!
//! A receipt has one text, and a text spells one receipt at most (`texts_are_one`): numbers have no leading zeros, digits
//! are lower-case, addresses rise, and nothing stands behind the last newline. A text that spells none has **one first
//! bad line**: a receipt begins with the lines before it, and none with these and it. An address that the device does not
//! have breaks the form, too.
//!
//! The reader cuts off a line at its newline, parses it loosely, prints again what it parsed and compares. So a plus, a
//! leading zero and a capital digit are refused without a rule of their own.
//!
//! **Not claimed**: that the listed cells show anything. They are read and printed here, and judged in
//! `receipt_check`.
//!
//! Stands on `document_store` (`Text`, identifiers) and `hex`; of a device it needs no more than the number of cells.
//! Begin with `reading.rt`; `specs/Form.antt` says what the form is.
#![tactic(auto)]

mod laws;
mod lines;
mod listed;
mod printing;
mod reading;
mod receipt;

pub use laws::{bad_is_one, limits_are_numbers, listed_are_cells, texts_are_one};
pub use listed::{ListedCell, ListedCells};
pub use printing::text_of_receipt;
pub use reading::read_receipt;
pub use receipt::{MAX_RECEIPT_CELLS, Receipt, ReceiptFault};
