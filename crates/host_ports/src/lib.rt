//! Where bytes come from and go to: sources and sinks, with their faults counted.
//!
//! A source gives bytes until its end, and a sink takes them. Either may move fewer than it was asked to, and
//! either may fail, which it counts. Contracts say what is left in a source and what a sink holds where these
//! tell it, as those in memory do. Standard input and output tell nothing.
//!
//! Eleven bytes through a buffer of four, from a source in memory whose third call is to fail:
//!
//!     take           left           put      held
//!                   "eleven byte"            ""
//!     Ok(4)         "en byte"       Ok(4)    "elev"
//!     Ok(4)         "yte"           Ok(4)    "eleven b"
//!     Err(Failed)   "yte"                    "eleven b"       the source counts one fault
//!     Ok(3)         ""              Ok(3)    "eleven byte"
//!     Ok(0)         ""                                        the end
//!
//! An `Err` says that a count of faults rose. Nothing is gone from a source then, and a caller may take again. A
//! sink may have got some first bytes of the piece; one in memory gets none. No clause says that a reader or a
//! writer of the host succeeds.
//!
//! `put_all` puts a whole piece, in as many calls as it takes. Stands on `worm_device`, for `Failed` and the words on
//! counts, and on `cell_types`, for `NoMemory`. Begin with `source.rt`; `specs/Sources.antt` says what a call of a
//! source does.
#![tactic(auto)]

mod gathered;
mod memory;
mod meter;
mod schedule;
mod sink;
mod source;
mod standard;
mod whole;

pub use gathered::Gathered;
pub use memory::{MemorySink, MemorySource};
pub use meter::{Meter, Silent, Work};
pub use sink::Sink;
pub use source::Source;
pub use standard::{StdSink, StdSource};
pub use whole::put_all;
pub use worm_device::Failed;
