//! Whether the log of a volume keeps its rules, and which of its slots have ended.
//!
//! This is the first part of an audit, over cells that were read once and are kept: each rule is a question of a value.
//! A rule speaks of each written cell of its places, and the answer is the least of these cells at which it is broken, or
//! none where it is kept at each of them:
//!
//!     rule 1    reserve cells, 4, 8, 12, ..    begins where the slot before ends, which is abandoned or done
//!     rule 2    outcome cells, 5, 9, 13, ..    abandon, or a commit that fits, with a stamp where the volume has stamps
//!     rule 3    done cells,    6, 10, 14, ..   names its slot, behind a commit cell
//!
//! Of a volume of 8 slots that holds one document, where somebody else has written an abandon cell into cell 9:
//!
//!     rule 1    cell 4 reserves 580, 4 cells, where the pool begins     kept
//!     rule 2    cell 5 is a commit cell of 4 cells, as are reserved     kept there
//!               cell 9 is written, and cell 8 is blank                  broken: rule 2 at cell 9
//!
//! Where the three rules are kept, the slots whose reserve cell is written are a row from slot 0 on, each but the last
//! has ended, and their reservations follow one another up to the edge. The **log** is that row in memory, 20 bytes a
//! slot, as the other rules need it: `log.at(0)` is done with 580, 4 cells, 13 bytes and a journal of 3, and the edge is
//! 584. A last slot that has not ended is no broken rule; it is named by its reserve cell, since an audit settles the
//! volume first, and then such a slot is somebody else's.
//!
//! Once the log is made, it goes with the kept cells and the layout into a `KeptVolume`, over which the other rules are
//! checked. There is none with the log of other cells, so no check asks whether the three belong together. The slots that
//! hold documents are those that are done, and each of them is live: `stored_slot` of slot 0 has its journal at 581 and its
//! document at 580, and `owner_of` a cell is the slot in whose blocks it lies, which here is none of any cell.
//!
//! `specs/Findings.antt` says what a check of any rule finds, and `specs/KeptVolumes.antt` says it of such a volume. Some
//! rules ask the same of each of many blocks or nodes, which may meet and come in any order: `lower_of` joins what was
//! found at one with what was found at the next, and `specs/Least.antt` says why the last of them is the least of all.
//! Overlaps are found in sorted numbers: `sort_once` sorts, and `place_of`, `lower_than` and `has_between` search by
//! bisection.
//!
//! The cells are read once, in rising order, and kept in memory: `keeping.rt` says how, and what that costs.
//!
//! Stands on `commit_record`. Begin with `checking.rt`.
#![tactic(auto)]

mod asking;
mod broken;
mod checking;
mod chunked;
mod chunks;
mod ended;
mod growing;
mod keeping;
mod kept;
mod kept_volume;
mod laws;
mod log;
mod looks;
mod lower;
mod owning;
mod rows;
mod shown;
mod slot_rules;
mod sorted;
mod stored;
mod written;

pub use broken::{first_broken_done, first_broken_outcome, first_broken_reserve};
pub use checking::check_log;
pub use chunked::ChunkedRows;
pub use ended::{EndedSlot, ended_slot};
pub use keeping::keep_cells;
pub use kept::KeptCells;
pub use kept_volume::KeptVolume;
pub use laws::{evidence_is_one, stored_slots_are_live};
pub use log::{Log, log_of};
pub use looks::{lies_in_pool, record_at, reservation};
pub use lower::{lies_behind, lower_of};
pub use shown::Shown;
pub use sorted::{has_between, lower_than, numbers_of, place_of, sort_once};
pub use stored::StoredSlot;
pub use written::WrittenCell;
