//! A device in memory that tells everything: what stands in its cells, what of it is sure, and each image
//! that a crash could have left so far.
//!
//! It keeps a record of its changes. What stands follows from the record alone, and so does what stood at each
//! moment before:
//!
//!     changes                     image          sure
//!                                 nothing        nothing      moment 0
//!     wrote cell 4                4              nothing      moment 1
//!     wrote cell 580              4, 580         nothing      moment 2: a crash leaves any of {}, {4}, {580}, {4, 580}
//!     synced                      4, 580         4, 580       moment 3
//!
//! Somebody else writes by `foreign`: such a write is a change as any other, and besides it is counted, so that callers
//! whose clauses begin "where nobody else wrote" can be tried on a device that tells its image while others write.
//!
//! The record's room is taken before, by `reserve`; a call that finds none for its change fails. Writes into a written
//! cell, and syncs that make no further cell sure, are no change. So a cell takes two changes at most, one that writes
//! it and one that makes it sure, and a command that begins with room for two of each cell never finds too little:
//!
//!     8 cells, 2 of them blank and none unsure     room 16     4 would do
//!     write 4                                      room 15     1 blank, 1 unsure: 3 would do
//!     sync                                         room 14     1 blank, 0 unsure: 2 would do
//!
//! A command can be **planned**. `begin` keeps a mark of how far things had come, for which `reserve` takes room beside
//! that of changes, and forgets the plan of the command before. Then moments are named by the command's steps, its
//! writes and syncs, or by all its calls, both from 1:
//!
//!     begin; fail_at(Step(2)); foreign_before(Call(3), 9, ..); stop_after(Call(4))
//!
//!     call 1           read 4         blank
//!     call 2, step 1   write 4        done
//!     call 3, step 2   write 580      somebody else writes cell 9, and then the call fails
//!     call 4, step 3   sync           cells 4 and 9 are sure
//!     call 5           read 4         fails, as each call from here on
//!
//! A call that fails changes nothing itself and counts one fault. There are no other faults than these: planned ones,
//! and calls that found no room.
//!
//! A command that begins with room for two changes of each cell **goes by its plan**: it is a row of calls, and in each
//! of them a planned foreign write was made exactly where its moment named the call and its cell was blank then, and the
//! call failed exactly where a moment that fails named it or the stop was reached before it. No call changes what a
//! device keeps from a beginning on, which is its marks, the plan, and whether the command goes by it; so this holds
//! behind any engine that calls the device, and `a_plan_is_kept` says it. The command does not go by its plan any more
//! once something is planned after its first call, or `foreign` or `crash` is called by hand.
//!
//! Of each change the device notes which call made it (`made_in`), so that what was blank when a moment came is read
//! off the record. A write of cell 5 that was made in step 9 says that the cell was blank when step 9 came: where
//! somebody else was to write it before that step, the record has that write, and not this one.
//!
//! Each change that a command makes itself takes a step of its own (`own_changes_take_steps`), so what a command cannot do
//! in fewer changes it has not done before somebody else was to write: `planned_writes_come_first` says that a cell which
//! somebody else was to write before step 9 holds what was planned, or was written when the command had made fewer than
//! nine changes itself. A sync that makes nothing sure is a step and no change.
//!
//! A **`crash`** takes each cell that is not sure and that it is not told to keep; all that stands then is sure. It
//! goes into the record cell by cell (`Lost`, then `Crashed`). `a_crash_keeps` says what this row of changes leaves,
//! and `unsure_cells` which cells a crash could take.
//!
//! Stands on `worm_device`. Begin with `memory_device.rt` and `device.rt`; `specs/Worlds.antt` says what a record
//! stands for, `specs/Outcomes.antt` what a call makes of the device, `specs/Runs.antt` what a row of calls makes of a
//! command by its plan, and `specs/Memory.antt` (`KeepsPlan`) what it is to go by a plan.
#![tactic(auto)]

mod arrival;
mod change;
mod commands;
mod device;
mod laws;
mod losses;
mod mark;
mod memory_device;
mod moment;
mod schedule;

pub use change::Change;
pub use laws::{
    a_command_has_room, a_crash_has_room, a_crash_keeps, a_plan_is_kept, beginnings_tell,
    none_is_uncounted, own_changes_take_steps, planned_writes_come_first, the_count_is_recorded,
    the_record_tells, unsure_cells,
};
pub use losses::Crash;
pub use mark::{CallNumbers, Mark};
pub use memory_device::MemoryDevice;
pub use moment::Moment;
