//! Worked files: commands of the program over files of the host, as a transcript. The file `commands` has them a line each, and
//! what is printed is each line and what it answers. The gate compares that with the file `stdout`.
//!
//!     $ worm volume.img ingest a < hello.txt
//!     acknowledged 0
//!     $ worm volume.img find nothing else
//!     0 found
//!     $ worm volume.img lookup b
//!     identifier not found (status 3)
//!
//! A line is what a shell would be told: `worm` with its words, and behind them the file that the command takes its input
//! from (`< FILE`) or that gets its output (`> FILE`). Two other lines make what these need: `zeros FILE BYTES` a file
//! of so many zeros, and `byte FILE AT VALUE` sets one byte of a file, as somebody would who has the medium in hand.
//!
//! Each command is carried out by `program::carry_out`, the call that the program itself makes. Begin with `transcript.rt`.
#![tactic(auto)]

mod transcript;

use host_files::HostCalls;
use std::fs;
use std::io::{self, Stderr};
use std::rt::Files;
use transcript::{Stop, play};

fn main(rt: HostRuntime) -> io::Result<()> {
    play_all(&rt, rt.stderr())
}

/// Carries out the lines of the file, one after another. One that asks for nothing that there is says so.
fn play_all(
    rt: &(impl Files<File: HostCalls> + Print + AllocGlobal),
    standard_error: Stderr,
) -> io::Result<()> {
    let text = fs::read_to_string(rt, "commands")?;
    for line in text.as_str().lines() {
        println!(rt; "$ {line}")?;
        match play(rt, line, standard_error) {
            Ok(()) => (),
            Err(Stop::NoLine) => println!(rt; "no such line")?,
            Err(Stop::Host(error)) => return Err(error),
        }
    }
    Ok(())
}
