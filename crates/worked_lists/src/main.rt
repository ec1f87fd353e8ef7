//! Worked lists: cells of indexes on a device in memory, what is asked of them, and what must be answered, as data.
//!
//! Each argument names a file of rows, which lies where the program runs. It carries out their lines, by the calls of
//! the low crates of the index, and prints how many rows agree; before that, each row that does not, with the first line
//! that is not so and what came. It ends with an error where a row does not agree.
//!
//!     row a_block_of_two_entries
//!     device 1000
//!     front 36 5 4 2
//!     first 36 6 = 9 255 010203040506 at 36 1
//!     first 36 10 = open 2 9
//!
//! docs/ROWS.md has each word. `rows` goes through the lines; `world` has what is at hand, and says which call a line is
//! for; `answer` tells what came. `laying` writes cells, and `blocks`, `searches`, `growing`, `sweeps` and `terms` make
//! the calls.
#![tactic(auto)]

mod answer;
mod blocks;
mod growing;
mod laying;
mod rows;
mod searches;
mod sweeps;
mod terms;
mod world;

use row_files::judge_files;
use rows::Rows;
use std::io;

fn main(rt: HostRuntime) -> io::Result<()> {
    judge_files::<Rows>(&rt)
}
