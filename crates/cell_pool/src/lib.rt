//! The pool of cells that new blocks and nodes come from, and the record cells that are planned one by one.
//!
//! Whoever plans a document takes blocks of 256 cells and nodes of 32 from the pool's front, one behind the other, from
//! the end of the last reservation on:
//!
//!     pool         580 .. 700
//!     grant 100    580 .. 679
//!     grant  32    none: 20 cells are left, and the pool is as it was
//!     grant  20    680 .. 699
//!
//! **Grants tile.** Each begins where the one before ends. So no two of them meet, and together they are the cells that
//! the pool has given (`grants_tile`).
//!
//! **Nothing is planned twice.** `plan_record` plans one cell of a posting, a pointer, a bucket or a child cell over what
//! a view shows, where nothing is planned yet.
//!
//! Stands on `worm_device`, for views and what is planned, and on `volume_meaning`, for what a cell holds. Begin with
//! `pool.rt`, then `planning.rt`.
#![tactic(auto)]

mod fault;
mod laws;
mod planning;
mod pool;

pub use fault::GrowthFault;
pub use laws::grants_tile;
pub use planning::{PlanFault, plan_record};
pub use pool::Pool;
