//! What a line of a row asks for. docs/ROWS.md has each kind of line, in the order of this page.
use crate::parts::{address_and_cell, cell, counted, number, two_numbers, word_and_rest};
use cell_types::Cell;
use worm_memory::Moment;

/// What a line of a row asks for.
#[derive(Clone, Copy)]
pub enum Act<'a> {
    Ask(Question),
    Make(Make),
    Call(Call<'a>),
    /// How many bytes the file has that a device is over.
    Size,
    Plan(Plan<'a>),
    Port(Port<'a>),
}

/// What is asked of bytes and layouts alone.
#[derive(Clone, Copy)]
pub enum Question {
    /// Sixteen bytes as a cell.
    Digits(u128),
    /// The record that a cell holds at an address.
    Record(u32, Cell),
    /// The last four bytes of a cell.
    Address(Cell),
    /// What a cell holds of a document.
    Content(Cell),
    /// Where the parts of a volume lie.
    Layout(Form),
    /// Where the cells of a slot lie.
    Slot(u32, Form),
    /// Where a list begins.
    List(u16, Form),
}

/// How many slots, lists and cells a volume is to have, and its version.
#[derive(Clone, Copy)]
pub struct Form {
    pub slots: u32,
    pub lists: u16,
    pub cells: u32,
    pub version: u8,
}

/// What a row is to have at hand.
#[derive(Clone, Copy)]
pub enum Make {
    /// A blank device in memory of so many cells, whose record has room for so many changes.
    Memory(u32, u32),
    /// A device over a file in memory.
    File(Content),
    /// One of each, blank and of so many cells, of which no call fails.
    Both(u32),
    /// Memory for so many kept cells.
    Cache(u32),
}

/// What a file in memory holds: so many zeros, or so many cells each of which holds its own number; and the call that fails,
/// with what a write leaves then.
#[derive(Clone, Copy)]
pub struct Content {
    pub size: u32,
    pub is_numbered: bool,
    pub fails: u32,
    pub leaving: Left,
}

/// What a write that fails leaves: nothing, all, or the first eight bytes.
#[derive(Clone, Copy)]
pub enum Left {
    Nothing,
    All,
    Half,
}

/// A call of a device.
#[derive(Clone, Copy)]
pub enum Call<'a> {
    Cells,
    Read(u32),
    Write(u32, Cell),
    Sync,
    /// A row of writes, from an address on.
    WriteRow(u32, &'a str),
    /// A row of so many reads.
    ReadRow(u32, u32),
    /// Whether each cell of a row holds its own number.
    Own(u32, u32),
    /// The bytes of so many cells.
    Bytes(u32, u32),
}

/// What is done to a device in memory besides, or looked for there.
#[derive(Clone, Copy)]
pub enum Plan<'a> {
    Reserve(u32),
    Begin,
    Fail(Moment),
    Stop(Moment),
    Before(Moment, u32, Cell),
    Foreign(u32, Cell),
    /// A crash that keeps these cells.
    Crash(&'a str),
    /// Reads of these cells, through a view of the device.
    Look(&'a str),
    /// Reads of these cells by way of kept cells.
    Kept(&'a str),
    Room,
    /// Whether the command goes by its plan.
    ByPlan,
    Changes,
    Mark(u32),
}

/// What is done with a source or a sink.
#[derive(Clone, Copy)]
pub enum Port<'a> {
    Source(&'a str),
    SourceFails(u32),
    Take(u32),
    SinkFails(u32),
    SinkRoom(u32),
    Put(&'a str),
    Held,
    /// A copy from the source to the sink, of at most so many pieces.
    Copy(u32),
}

/// What a line asks for, if it is one of these kinds.
pub fn act_of(text: &str) -> Option<Act<'_>> {
    if text == "size" {
        return Some(Act::Size);
    }
    let (word, rest) = word_and_rest(text);
    if let Some(question) = question_of(word, rest) {
        return Some(Act::Ask(question));
    }
    if let Some(make) = make_of(word, rest) {
        return Some(Act::Make(make));
    }
    if let Some(call) = call_of(word, rest) {
        return Some(Act::Call(call));
    }
    if let Some(plan) = plan_of(word, rest) {
        return Some(Act::Plan(plan));
    }
    Some(Act::Port(port_of(word, rest)?))
}

fn question_of(word: &str, rest: &str) -> Option<Question> {
    match word {
        "digits" => Some(Question::Digits(u128::from_str_radix(rest, 16).ok()?)),
        "record" => {
            let (at, value) = address_and_cell(rest)?;
            Some(Question::Record(at, value))
        }
        "address" => Some(Question::Address(cell(rest)?)),
        "content" => Some(Question::Content(cell(rest)?)),
        "layout" => Some(Question::Layout(form_of(rest)?)),
        "slot" => {
            let (slot, form) = counted(rest)?;
            Some(Question::Slot(slot, form_of(form)?))
        }
        "list" => {
            let (list, form) = word_and_rest(rest);
            Some(Question::List(list.parse().ok()?, form_of(form)?))
        }
        _ => None,
    }
}

fn form_of(text: &str) -> Option<Form> {
    let (slots, text) = counted(text)?;
    let (lists, text) = word_and_rest(text);
    let (cells, version) = counted(text)?;
    Some(Form {
        slots,
        lists: lists.parse().ok()?,
        cells,
        version: version.parse().ok()?,
    })
}

fn make_of(word: &str, rest: &str) -> Option<Make> {
    match word {
        "memory" => {
            let (cells, changes) = two_numbers(rest)?;
            Some(Make::Memory(cells, changes))
        }
        "zeros" | "numbered" => {
            let (size, rest) = counted(rest)?;
            let (fails, leaving) = counted(rest)?;
            let leaving = left_of(leaving)?;
            let is_numbered = word == "numbered";
            Some(Make::File(Content {
                size,
                is_numbered,
                fails,
                leaving,
            }))
        }
        "both" => Some(Make::Both(number(rest)?)),
        "cache" => Some(Make::Cache(number(rest)?)),
        _ => None,
    }
}

fn left_of(text: &str) -> Option<Left> {
    match text {
        "nothing" => Some(Left::Nothing),
        "all" => Some(Left::All),
        "half" => Some(Left::Half),
        _ => None,
    }
}

fn call_of<'a>(word: &str, rest: &'a str) -> Option<Call<'a>> {
    match word {
        "cells" => Some(Call::Cells),
        "read" => Some(Call::Read(number(rest)?)),
        "write" => {
            let (at, value) = address_and_cell(rest)?;
            Some(Call::Write(at, value))
        }
        "sync" => Some(Call::Sync),
        "writerow" => {
            let (at, values) = counted(rest)?;
            Some(Call::WriteRow(at, values))
        }
        "readrow" | "own" | "bytes" => {
            let (at, count) = two_numbers(rest)?;
            Some(match word {
                "readrow" => Call::ReadRow(at, count),
                "own" => Call::Own(at, count),
                _ => Call::Bytes(at, count),
            })
        }
        _ => None,
    }
}

fn plan_of<'a>(word: &str, rest: &'a str) -> Option<Plan<'a>> {
    match word {
        "reserve" => Some(Plan::Reserve(number(rest)?)),
        "begin" => Some(Plan::Begin),
        "fail" => Some(Plan::Fail(moment_of(rest)?.0)),
        "stop" => Some(Plan::Stop(moment_of(rest)?.0)),
        "before" => {
            let (moment, rest) = moment_of(rest)?;
            let (at, value) = address_and_cell(rest)?;
            Some(Plan::Before(moment, at, value))
        }
        "foreign" => {
            let (at, value) = address_and_cell(rest)?;
            Some(Plan::Foreign(at, value))
        }
        "crash" => Some(Plan::Crash(rest)),
        "look" => Some(Plan::Look(rest)),
        "kept" => Some(Plan::Kept(rest)),
        "room" => Some(Plan::Room),
        "plan" => Some(Plan::ByPlan),
        "changes" => Some(Plan::Changes),
        "mark" => Some(Plan::Mark(number(rest)?)),
        _ => None,
    }
}

/// A moment, `step N` or `call N`, and the text behind it.
fn moment_of(text: &str) -> Option<(Moment, &str)> {
    let (kind, rest) = word_and_rest(text);
    let (at, rest) = counted(rest)?;
    match kind {
        "step" => Some((Moment::Step(at), rest)),
        "call" => Some((Moment::Call(at), rest)),
        _ => None,
    }
}

fn port_of<'a>(word: &str, rest: &'a str) -> Option<Port<'a>> {
    match word {
        "source" => Some(Port::Source(rest)),
        "sourcefails" => Some(Port::SourceFails(number(rest)?)),
        "take" => Some(Port::Take(number(rest)?)),
        "sinkfails" => Some(Port::SinkFails(number(rest)?)),
        "sinkroom" => Some(Port::SinkRoom(number(rest)?)),
        "put" => Some(Port::Put(rest)),
        "held" => Some(Port::Held),
        "copy" => Some(Port::Copy(number(rest)?)),
        _ => None,
    }
}
