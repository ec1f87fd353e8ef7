//! What a line of a row asks for. docs/ROWS.md has each kind of line, in the order of this page.
use crate::parts::{is_hexadecimal, moment_and_rest, push_hexadecimal};
use cell_types::Cell;
use row_files::{address_and_cell, counted, number, two_numbers};
use std::alloc::{AllocError, Global};
use worm_memory::{Change, Moment};

/// What a line of a row asks for.
#[derive(Clone, Copy)]
pub enum Step<'a> {
    /// A blank device of so many cells.
    Device(u32),
    /// That the cells of the device are kept.
    Save,
    /// A device with just the cells that were kept.
    Saved,
    /// That the device at hand is set aside, and the one that was aside, if any, is at hand.
    Aside,
    /// What the command answered.
    Answer(Answer<'a>),
    /// The next change that it made to the device, or that there is none.
    Changed(Option<Change>),
    /// Something else of the device at hand, once all of the last answer was told.
    Act(Act<'a>),
    /// A line that is not to be carried out.
    Nothing,
}

/// What is done with the device at hand, or looked for on it.
#[derive(Clone, Copy)]
pub enum Act<'a> {
    /// Room for so many changes before each command.
    Room(u32),
    /// That somebody else writes a blank cell.
    Put(u32, Cell),
    /// Bytes for the source of the next command.
    Give(Bytes<'a>),
    /// What befalls the next command.
    Plan(Plan),
    /// That the command is carried out; its last word is that text, so many times.
    Command {
        words: &'a str,
        times: u32,
    },
    /// What stands in a cell.
    Cell(u32, Cell),
    /// That cells are blank, from one number to another.
    Blank(u32, u32),
    /// How many cells are written.
    Written(u32),
    /// A crash that keeps these cells, and how many of how many that are not sure.
    Crash {
        keep: &'a str,
        kept: u32,
        unsure: u32,
    },
}

/// Bytes as a line has them.
#[derive(Clone, Copy)]
pub struct Bytes<'a> {
    form: Form,
    times: u32,
    text: &'a str,
}

#[derive(Clone, Copy)]
enum Form {
    Text,
    Line,
    Hexadecimal,
}

/// What befalls the next command: a call of the device that fails, or from which on each does; a cell that somebody else
/// writes before a call; a call of the source or of the sink that fails.
#[derive(Clone, Copy)]
pub enum Plan {
    Fails(Moment),
    Stops(Moment),
    Writes(Moment, u32, Cell),
    SourceFails(u32),
    SinkFails(u32),
}

/// What a command answered: what it put out next; that all that is left of this is a first part of a line; a refusal's
/// status and line; or one of several whole answers.
#[derive(Clone, Copy)]
pub enum Answer<'a> {
    PutsOut(Bytes<'a>),
    PutsPartOf(&'a str),
    Refuses(&'a str),
    IsOneOf(&'a str),
}

impl Bytes<'_> {
    /// Puts these bytes behind others.
    pub fn push_onto(&self, alloc: Global, bytes: &mut Vec<u8>) -> Result<(), AllocError> {
        let mut once = Vec::new(alloc);
        match self.form {
            Form::Hexadecimal => push_hexadecimal(&mut once, self.text)?,
            Form::Text | Form::Line => once.extend_from_slice(self.text.as_bytes())?,
        }
        if let Form::Line = self.form {
            once.push(b'\n')?;
        }
        for _ in 0..self.times {
            bytes.extend_from_slice(&once)?;
        }
        Ok(())
    }
}

/// What a line asks for, if it is one of these kinds.
pub fn step_of(text: &str) -> Option<Step<'_>> {
    let Some(rest) = text.strip_prefix("bit ") else {
        return plain_step_of(text);
    };
    let (bit, rest) = counted(rest)?;
    let (bits, line) = counted(rest)?;
    if bits.checked_shr(bit)? % 2 == 0 {
        return Some(Step::Nothing);
    }
    plain_step_of(line)
}

/// The same of a line that does not hang on a number.
fn plain_step_of(text: &str) -> Option<Step<'_>> {
    let (word, rest) = text.split_once(' ').unwrap_or((text, ""));
    match word {
        "device" => Some(Step::Device(number(rest)?)),
        "save" if rest.is_empty() => Some(Step::Save),
        "saved" if rest.is_empty() => Some(Step::Saved),
        "aside" if rest.is_empty() => Some(Step::Aside),
        ">~" => Some(Step::Answer(Answer::PutsPartOf(rest))),
        "!" => Some(Step::Answer(Answer::Refuses(rest))),
        "=" => Some(Step::Answer(Answer::IsOneOf(rest))),
        "+" => changed(rest),
        "room" => Some(Step::Act(Act::Room(number(rest)?))),
        "blank" => {
            let (from, to) = two_numbers(rest)?;
            Some(Step::Act(Act::Blank(from, to)))
        }
        "written" => Some(Step::Act(Act::Written(number(rest)?))),
        "crash" => crash(rest),
        "put" | "cell" => about_cell(word, rest),
        "$" | "$*" => command(word, rest),
        _ => bytes_or_plan(word, rest),
    }
}

/// A cell that is written, or looked at.
fn about_cell<'a>(word: &str, rest: &'a str) -> Option<Step<'a>> {
    let (at, cell) = address_and_cell(rest)?;
    if word == "put" {
        return Some(Step::Act(Act::Put(at, cell)));
    }
    Some(Step::Act(Act::Cell(at, cell)))
}

/// A command.
fn command<'a>(word: &str, rest: &'a str) -> Option<Step<'a>> {
    let (times, words) = if word == "$" {
        (1, rest)
    } else {
        counted(rest)?
    };
    Some(Step::Act(Act::Command { words, times }))
}

/// Bytes that a command is given or puts out, or what befalls it.
fn bytes_or_plan<'a>(word: &str, rest: &'a str) -> Option<Step<'a>> {
    if let Some(mark) = word.strip_prefix('>') {
        return Some(Step::Answer(Answer::PutsOut(bytes_of(mark, rest)?)));
    }
    if let Some(mark) = word.strip_prefix('<') {
        return Some(Step::Act(Act::Give(bytes_of(mark, rest)?)));
    }
    Some(Step::Act(Act::Plan(plan_of(word, rest)?)))
}

/// The bytes of a line whose word has this mark behind its arrow.
fn bytes_of<'a>(mark: &str, rest: &'a str) -> Option<Bytes<'a>> {
    let (form, is_counted) = match mark {
        "" => (Form::Line, false),
        ":" => (Form::Text, false),
        "x" => (Form::Hexadecimal, false),
        "*" => (Form::Text, true),
        "x*" => (Form::Hexadecimal, true),
        _ => return None,
    };
    let (times, text) = if is_counted {
        counted(rest)?
    } else {
        (1, rest)
    };
    if matches!(form, Form::Hexadecimal) && !is_hexadecimal(text) {
        return None;
    }
    Some(Bytes { form, times, text })
}

/// What befalls the next command by a line.
fn plan_of(word: &str, rest: &str) -> Option<Plan> {
    match word {
        "source" => Some(Plan::SourceFails(number(rest)?)),
        "sink" => Some(Plan::SinkFails(number(rest)?)),
        "fail" | "stop" => {
            let (moment, "") = moment_and_rest(rest)? else {
                return None;
            };
            Some(if word == "fail" {
                Plan::Fails(moment)
            } else {
                Plan::Stops(moment)
            })
        }
        "write" => {
            let (moment, rest) = moment_and_rest(rest)?;
            let (at, cell) = address_and_cell(rest)?;
            Some(Plan::Writes(moment, at, cell))
        }
        _ => None,
    }
}

/// The change of a line.
fn changed(rest: &str) -> Option<Step<'_>> {
    match rest {
        "none" => Some(Step::Changed(None)),
        "sync" => Some(Step::Changed(Some(Change::Synced))),
        _ => {
            let (at, value) = address_and_cell(rest)?;
            Some(Step::Changed(Some(Change::Wrote { at, value })))
        }
    }
}

/// The crash of a line: `AT .. = K of U`.
fn crash(rest: &str) -> Option<Step<'_>> {
    let (keep, counts) = rest.split_once("= ")?;
    for at in keep.split_whitespace() {
        let _ = number(at)?;
    }
    let (kept, unsure) = counts.split_once(" of ")?;
    let (kept, unsure) = (number(kept)?, number(unsure)?);
    Some(Step::Act(Act::Crash { keep, kept, unsure }))
}
