//! The lines of a transcript: what each does, and what it answers.
use cell_types::NoMemory;
use host_files::HostCalls;
use host_ports::{MemorySink, MemorySource};
use program::carry_out;
use program_host::SystemFiles;
use std::alloc::{AllocError, Global};
use std::fs;
use std::io::{self, ErrorKind, Seek, Stderr, Write};
use std::rt::Files;

/// Room for what a command puts out, in bytes.
const SINK_BYTES: u32 = 1_048_576;

/// Why a line was not carried out.
#[derive(Drop)]
pub enum Stop {
    /// It is none.
    NoLine,
    /// The host refused, or there was no memory.
    Host(io::Error),
}

impl From<io::Error> for Stop {
    fn from(error: io::Error) -> Stop {
        Stop::Host(error)
    }
}

impl From<AllocError> for Stop {
    fn from(_error: AllocError) -> Stop {
        Stop::Host(io::Error::from(ErrorKind::OutOfMemory))
    }
}

impl From<NoMemory> for Stop {
    fn from(_error: NoMemory) -> Stop {
        Stop::Host(io::Error::from(ErrorKind::OutOfMemory))
    }
}

/// Carries out a line, and prints what it answers.
pub fn play(
    rt: &(impl Files<File: HostCalls> + Print + AllocGlobal),
    line: &str,
    standard_error: Stderr,
) -> Result<(), Stop> {
    let (verb, rest) = line.split_once(' ').ok_or(Stop::NoLine)?;
    match verb {
        "zeros" => make_zeros(rt, rest),
        "byte" => set_byte(rt, rest),
        "worm" => run_program(rt, rest, standard_error),
        _ => Err(Stop::NoLine),
    }
}

/// `FILE BYTES`: makes a file of so many zeros, or makes it anew.
fn make_zeros(rt: &(impl Files + AllocGlobal), rest: &str) -> Result<(), Stop> {
    let (path, digits) = rest.split_once(' ').ok_or(Stop::NoLine)?;
    let Ok(size) = digits.parse::<usize>() else {
        return Err(Stop::NoLine);
    };
    let zeros = vec![in rt.alloc(); 0u8; size]?;
    fs::write(rt, path, zeros)?;
    Ok(())
}

/// `FILE AT VALUE`: sets a byte that the file has.
fn set_byte(rt: &(impl Files + AllocGlobal), rest: &str) -> Result<(), Stop> {
    let (path, rest) = rest.split_once(' ').ok_or(Stop::NoLine)?;
    let (at, value) = rest.split_once(' ').ok_or(Stop::NoLine)?;
    let (Ok(at), Ok(value)) = (at.parse::<usize>(), value.parse::<u8>()) else {
        return Err(Stop::NoLine);
    };
    let mut bytes = fs::read(rt, path)?;
    let Some(byte) = bytes.get_mut(at) else {
        return Err(Stop::NoLine);
    };
    *byte = value;
    fs::write(rt, path, bytes)?;
    Ok(())
}

/// A command of the program. Its input comes from the file behind `<`, if there is one, and its output goes into the file
/// behind `>`, or is printed. Where it is not done, the line that says why is printed, with the status.
fn run_program(
    rt: &(impl Files<File: HostCalls> + Print + AllocGlobal),
    rest: &str,
    standard_error: Stderr,
) -> Result<(), Stop> {
    let alloc = rt.alloc();
    let (rest, output) = parted(rest, " > ");
    let (words, input) = parted(rest, " < ");
    let body = match input {
        Some(path) => fs::read(rt, path)?,
        None => Vec::new(alloc),
    };
    let mut source = MemorySource::new(body);
    let mut sink = MemorySink::new(alloc);
    sink.reserve(SINK_BYTES)?;
    let done = carry_out(
        alloc,
        &mut SystemFiles::new(rt, standard_error),
        words_of(alloc, words)?,
        &mut source,
        &mut sink,
        standard_error,
    );
    match output {
        Some(path) => fs::write(rt, path, sink.bytes())?,
        None => print_bytes(rt, sink.bytes())?,
    }
    if let Err(fault) = done {
        println!(rt; "{fault} (status {})", fault.status())?;
    }
    Ok(())
}

/// The text before this mark, and what stands behind it, if it is there.
fn parted<'a>(text: &'a str, mark: &str) -> (&'a str, Option<&'a str>) {
    match text.split_once(mark) {
        Some((before, behind)) => (before, Some(behind)),
        None => (text, None),
    }
}

/// The words of a command.
fn words_of(alloc: Global, text: &str) -> Result<Vec<String>, AllocError> {
    let mut words = Vec::new(alloc);
    for word in text.split(' ') {
        words.push(String::from_str(alloc, word)?)?;
    }
    Ok(words)
}

/// Prints the bytes as they are, and ends their last line where they do not.
fn print_bytes(rt: &impl Print, bytes: &[u8]) -> io::Result<()> {
    let mut writer = io::writer(rt);
    writer.write_all(bytes)?;
    match bytes.last() {
        None | Some(b'\n') => Ok(()),
        Some(_) => writer.write_all(b"\n"),
    }
}
