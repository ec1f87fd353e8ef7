//! Worked cells: what cells, devices, sources, sinks and kept cells answer, as rows of data.
//!
//! Each argument names a file of rows, which lies where the program runs. A line of a row asks for something, and says
//! behind ` = ` what is to come of it. The program prints a line a file, how many rows agree; before it, each row that does
//! not, with the first line that is not so, and what came:
//!
//!     row a_cell_is_written_once
//!     memory 8 3 = done
//!     write 3 7 = done
//!     write 3 9 = taken 7
//!     changes = wrote 3 7
//!
//! docs/ROWS.md has each kind of line. `acts` reads what a line asks for, and `parts` its numbers and cells; `tables`,
//! `devices`, `memories` and `ports` do it, `bench` with what a row has at hand; `answers` says what came, and `rows` whether
//! that is so.
#![tactic(auto)]

mod acts;
mod answers;
mod bench;
mod devices;
mod memories;
mod parts;
mod ports;
mod rows;
mod tables;

use rows::judge;
use std::rt::{Env, Files};
use std::{env, fs, io};

fn main(rt: HostRuntime) -> io::Result<()> {
    let mut all = env::args(&rt)?;
    let _ = all.next();
    let files: Vec<String> = all.collect(rt.alloc())?;
    for file in &files {
        judge_file(&rt, file.as_str())?;
    }
    Ok(())
}

/// Judges the rows of a file, and prints what came of them.
fn judge_file(rt: &(impl Env + Files + Print + AllocGlobal), file: &str) -> io::Result<()> {
    let text = fs::read_to_string(rt, file)?;
    let Ok(tally) = judge(rt.alloc(), text.as_str()) else {
        return Err(io::Error::from(io::ErrorKind::OutOfMemory));
    };
    for line in &tally.wrong {
        println!(rt; "{file}: {line}")?;
    }
    let agree = tally.rows.saturating_sub(tally.wrong.len());
    println!(rt; "{file}: {agree} of {} rows agree", tally.rows)
}
