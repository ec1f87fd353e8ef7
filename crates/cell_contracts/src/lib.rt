//! The public contracts of cells, devices, ports and files once more, each on a function that only calls the one that
//! has it.
//!
//! An edit in `must-fail` makes the answer of such a call wrong, or its effect, and the check has to refuse that by
//! the contract. So it shows what a contract keeps out, whatever body stands behind it:
//!
//!     pub fn decode_again(cell: Cell, address: u32) -> Option<RecordCell>
//!         ensures ..                      word for word what `decode` ensures
//!     {
//!         decode(cell, address)           the edit has `decode(cell, address / 2)`, and is refused
//!     }
//!
//! The wrong line stands here and not in the crate that has the contract, for what it costs: before the first edit of
//! a crate is tried, the whole crate is checked once more, and a function that only calls is checked in a second or
//! two. There is one such crate a layer, so that an edit waits for no more than the layers below it:
//! `reading_contracts`, `planning_contracts`, `audit_contracts` and `command_contracts` besides.
//!
//! Nobody calls these functions. Where a contract comes to say more than it does here, the check stays silent, and
//! where it says less, the call no longer gives what stands here: so a contract that is changed is changed here too.
//!
//! Begin with `cells.rt`.
#![tactic(auto)]

mod cells;
mod devices;
mod files;
mod host;
mod memory;
mod ports;

pub use cells::{content_of_again, decode_again, encode_again, geometry_again};
pub use devices::{read_bytes_again, read_planned_again, write_row_again};
pub use files::{read_at_again, read_file_again, sync_file_again, write_file_again};
pub use host::{
    begin_again, read_host_again, sync_host_again, write_host_again, write_host_places_again,
};
pub use memory::{crash_again, foreign_before_again, read_memory_again, sync_memory_again};
pub use ports::{put_again, put_all_again, take_again};
