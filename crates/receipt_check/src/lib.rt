//! Checks a receipt, whether the cells that it lists stand on a device and keep its document; and makes one.
//!
//! A receipt lists the written cells that a document's being kept rests on. Cells stay, so whoever finds them on a
//! device knows that the document is kept there, and will be. That of `a`, `hello world` on the volume of 8 slots and
//! 2 lists:
//!
//!     receipt 0 a
//!     0, 4, 5, 6      the volume cell, and the slot's reserve, commit and done cell
//!     36, 37, 560     two postings, and the bucket
//!     580             the document
//!
//! **The check** reads each listed cell of the device, by rising address, and then judges the listed cells alone, as a
//! view whose reads can't fail. No cell besides is read of the device, and none is trusted: `NotShown` comes exactly
//! where the listed cells keep no such document. Cells beside those that are needed do no harm, if only they stand.
//!
//! **A receipt holds on.** One whose cells show a document and stand in an image is accepted on each device whose image
//! extends that one, but for want of memory and reads that fail: `receipts_hold_on`.
//!
//! **What is made is accepted.** A receipt is made of just the cells that its document's being kept rests on, and
//! judged as a check will judge it before it goes out: `receipts_are_accepted`.
//!
//! Stands on `receipt_text` (the type of a receipt), on `kept_documents`, which decides whether a document is kept, on
//! `receipt_cells`, which lists the cells, and on `record_query`, for the look-up. Begin with `checking.rt`, then
//! `making.rt`; `specs/Checks.antt` and `specs/Making.antt` say how each may end.
#![tactic(auto)]

mod checking;
mod laws;
mod listing;
mod making;
mod making_laws;
mod naming;
mod shown;

pub use checking::{CheckRefusal, Checked, check_receipt};
pub use laws::receipts_hold_on;
pub use making::make_receipt;
pub use making_laws::receipts_are_accepted;
pub use shown::ShownCells;
