//! The calls that a program makes with the words of a command. Each carries out the command, or refuses and
//! says why.
//!
//! `run` takes a command on one device, and `run_two` copies a volume to a second device. `run_over_file`
//! and `run_two_over_files` do the same over files. On a blank device, with `hello world` in the source for
//! the `ingest`:
//!
//!     format 8 2      makes a volume of 8 slots and 2 lists                        formatted
//!     ingest a        reads the body from the source, stores it and its index      acknowledged 0
//!     find hello      searches the documents: slot 0, identifier `a`, 11 bytes     0 a 11
//!                                                                                  1 found
//!     exercise 3      makes a volume in memory, and searches and audits it         documents 3 ..
//!
//! `volume_commands` says what a command does on a volume. Two commands are here instead, since they leave
//! the device alone. Each makes a device in memory of its own. A `replay` reads a script from the source,
//! carries out its events, and prints a line for each. An `exercise` stores as many documents as its number
//! says, searches, reads and audits them, and prints what came of it.
//!
//! If a command is not done, it ends with a refusal that names the cause. Now suppose that nobody else
//! writes, and that the device was blank at first. Then whatever a crash leaves of a command, at any
//! moment, is blank or sound. Settling makes a settled volume of it. This holds the documents that were
//! sure before the command, or those that stood then, and after an `ingest` perhaps the new one as well.
//!
//! To add a command, add one case to each relation of `specs/Commands.antt` here and of
//! `specs/Steadiness.antt` in `volume_commands`, a file to `volume_commands`, and an arm to `command.rt`.
//! `command_line` reads its words.
//!
//! Stands on `command_line`, which reads words; `volume_commands`, `volume_copy`, `hostile_replay` and
//! `volume_exercise`, which do the work; and `host_files`. Begin with `command.rt`. `specs/Commands.antt`
//! lists the commands, and leads to what each does.
#![tactic(auto)]

mod command;
mod copy_text;
mod copying;
mod exercising;
mod laws;
mod over_file;
mod replay;
mod two_files;

pub use command::{run, run_metered};
pub use copying::run_two;
pub use exercising::exercise;
pub use laws::{limits_of_commands, limits_of_scripts, limits_of_volumes};
pub use over_file::run_over_file;
pub use two_files::run_two_over_files;
pub use volume_commands::Outcome;
