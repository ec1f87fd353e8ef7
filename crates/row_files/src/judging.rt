//! Which rows of files agree.
use std::alloc::{AllocError, Global};
use std::rt::{Env, Files};
use std::{env, fs, io};

/// How many rows there are, and what is said of those that do not agree.
#[derive(Drop)]
pub struct Tally {
    pub rows: usize,
    pub wrong: Vec<String>,
}

/// What carries out rows.
pub trait Judge {
    /// Carries out the rows of a text.
    fn judge(alloc: Global, text: &str) -> Result<Tally, AllocError>;
}

/// Judges the rows of each file that an argument names, and prints what came of them. A row that does not agree is an
/// error.
pub fn judge_files<J: Judge>(rt: &(impl Env + Files + Print + AllocGlobal)) -> io::Result<()> {
    let mut all = env::args(rt)?;
    let _ = all.next();
    let files: Vec<String> = all.collect(rt.alloc())?;
    for file in &files {
        judge_file::<J>(rt, file.as_str())?;
    }
    Ok(())
}

/// Judges the rows of a file, and prints what came of them.
fn judge_file<J: Judge>(rt: &(impl Files + Print + AllocGlobal), file: &str) -> io::Result<()> {
    let text = fs::read_to_string(rt, file)?;
    let Ok(Tally { rows, wrong }) = J::judge(rt.alloc(), text.as_str()) else {
        return Err(io::Error::from(io::ErrorKind::OutOfMemory));
    };
    for line in &wrong {
        println!(rt; "{file}: {line}")?;
    }
    let agree = rows.saturating_sub(wrong.len());
    println!(rt; "{file}: {agree} of {rows} rows agree")?;
    if agree < rows {
        return Err(io::Error::from(io::ErrorKind::InvalidData));
    }
    Ok(())
}
