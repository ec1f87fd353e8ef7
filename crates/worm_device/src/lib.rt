//! Storage whose cells are written once: devices, which read, write and sync cells, and views, which only
//! read.
//!
//! The **image** of a device is what its cells hold now. The **sure** image is the part of it that no crash
//! can take. A write adds one cell to the image. A sync makes all of it sure. Somebody else may write blank
//! cells before any call. A **moment** is a number that never falls, and contracts know both images at each
//! earlier one:
//!
//!     moment 0   cell 4 written, nothing sure     a crash leaves cell 4 or no cell
//!       sync
//!     moment 1   cell 4 written, cell 4 sure      a crash leaves cell 4
//!       write 580
//!     moment 2   cells 4 and 580, cell 4 sure     a crash leaves cell 4, with cell 580 or without
//!
//! `LeftSince` says what a crash may have left at any time since a moment, even in the middle of a call.
//! Since moment 0 that is everything in the right column.
//!
//! **`Called old new`** says what every call keeps, even one that fails. The number of cells stays, and so
//! does what the device noted when the command began. Both images extend the old ones. No count falls. A
//! crash during the call leaves something between the old sure image and the new image. A function that
//! makes several calls has `Called` for all of them, and no proof is needed.
//!
//! **`tells`** says whether contracts may speak of what the cells hold. A device in memory tells. A device
//! over a file of the operating system cannot, so each clause about content begins with `IsTrue old.tells`.
//! Clauses about counts and causes hold for both.
//!
//! A **view** reads a device, directly (`Direct`) or through something that shows planned cells over it.
//! `Viewed` says what a row of reads keeps, as `Called` does for a device. An **overlay** is such a view.
//! Cells are planned in it one by one, each with its owner, and nothing is written below:
//!
//!     below      804 .. 931 written, 962 blank, 1092 free
//!     plan       1092, a posting, and 962, the pointer to it
//!     shown      804 .. 931, 962 and 1092; from 1092 on only planned cells
//!
//! Stands on `cell_types`. Begin with `device.rt`. `specs/State.antt` says what a device is, and
//! `specs/Calls.antt` what each call does.
#![tactic(auto)]

mod device;
mod direct;
mod laws;
mod looks;
mod overlay;
mod owner;
mod planned;
mod planning;
mod row_bytes;
mod shown;
mod view;

pub use device::{Device, Failed, RowWritten, Written};
pub use direct::Direct;
pub use laws::{
    a_crash_in_a_call, a_crash_now, calls_compose, calls_elapse, crashes_keep_what_was_sure,
    planned_cells_show, views_compose, views_rest,
};
pub use looks::{Found, ReadRecord, look, record_at};
pub use overlay::{OVERLAY_CELLS, Overlay, PlannedCells};
pub use owner::Owner;
pub use view::View;
