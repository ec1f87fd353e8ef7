//! A view that keeps written cells of the view below, so that most cells that are read one at a time are read there
//! once.
//!
//! A written cell never changes, so one that was read once may be answered again from memory. A blank cell may be
//! written at any time, by whoever else writes: it is never kept, and each read of it asks below. Two cells are kept
//! here, of a device where 36 and 37 are written and 38 is blank:
//!
//!     read 36    below     kept: 36
//!     read 36    memory    kept: 36
//!     read 38    below     kept: 36           blank
//!     read 38    below     kept: 38, 36       somebody else has written it meanwhile, and that is answered
//!     read 37    below     kept: 37, 38       36 was used longest ago, and makes room
//!
//! A row goes below in one call. No cell of it is looked for, and none is kept.
//!
//! **Where there is memory for more than 128 cells**, 128 of them stand at places by their numbers, and a cell
//! takes the place of the one before it. One that was asked for again 64 times is kept behind the places as well:
//!
//!     read 36    below     place 36: 36
//!     read 164   below     place 36: 164      36 and 164 share it
//!     read 36    below     place 36: 36       unless it was asked for often: then it is found behind the places
//!
//! Beside a read of a page that is held, a look at a place costs little, one behind the places two thirds as much,
//! and to keep a cell there as much as ten. So few cells go there, and nothing is looked for where there are none.
//!
//! Contracts see the view below: `Cached` shows what it shows, plans nothing, and adds the name of the loan alone. A
//! ghost field says that each kept cell stands in what is shown, where the device at the bottom tells its image. Each
//! read asks below once at most, and not at all for a kept cell.
//!
//! **Memory** stands in `CellCache`, which is made before and lent: `CellCache::new` can fail, `Cached::new` can't.
//! A constructor that answers a `Result`, a view that is held by value, or memory that is held by value and dropped
//! beside it would lose the device that was lent. A memory that serves one view after another begins anew with
//! each, so that no view answers with cells of another. Room behind the places is taken when a cell is kept; where
//! there is none, it is not kept.
//!
//! **Not claimed**: how many reads this saves. Tests count some. The hash of a cell's number has a fixed seed, so
//! whoever picks numbers could make look-ups slow, by as many steps as cells are kept.
//!
//! Stands on `lru` (which cells are kept behind the places) and `worm_device`. `record_query` reads lists and slots
//! through it. Begin with `cached.rt`, then `reads.rt`; specs/Keeping.antt says what is known of kept cells.
#![tactic(auto)]

mod cached;
mod cell_cache;
mod kept;
mod reads;
mod recent;

pub use cached::Cached;
pub use cell_cache::CellCache;
