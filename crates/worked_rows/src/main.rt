//! Worked rows: commands over devices in memory, and what they must answer, as data. They are the project's conformance tests.
//!
//! Each argument names a file of rows, which lies where the program runs. It carries out their lines, by `record_top::run`,
//! and prints a line a file: how many rows agree; before it, each row that does not, with the first line that is not so.
//! It ends with an error where a row does not agree.
//!
//!     row a_volume_has_so_many_slots
//!     device 400
//!     $ format|1|1
//!     > formatted
//!     $ ingest|b
//!     ! 3 no slot is free
//!
//! docs/ROWS.md has each kind of line. `lines` writes loops and named pieces out; `steps` reads what a line asks for, and
//! `parts` its numbers, bytes and cells; `world` has the device of a row, and what the last command answered; `rows` says of
//! each line whether it is so.
#![tactic(auto)]

mod lines;
mod parts;
mod rows;
mod steps;
mod world;

use row_files::judge_files;
use rows::Rows;
use std::io;

fn main(rt: HostRuntime) -> io::Result<()> {
    judge_files::<Rows>(&rt)
}
