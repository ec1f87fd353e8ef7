//! What came of a line, and how that is told.
use cell_types::{Cell, Fault};
use jump_block::{Entry, Front, Span};
use std::alloc::{AllocError, Global};

/// What came of a line.
#[derive(Clone, Copy)]
pub enum Answer {
    /// It asks for nothing that can be done with the device at hand.
    NoAsk,
    Done,
    Nothing,
    Number(u64),
    Is(bool),
    Cell(Cell),
    Entry(Entry),
    Front(Front),
    Span(Span),
    Fault(Fault),
    /// How many foreign cells were named by an insertion, and whether one was passed.
    Tried { named: u32, is_passed: bool },
    /// A foreign cell at this address hid a key, or let another cell be named.
    Hides(u32),
}

/// The answer of a search.
pub fn of_entry(found: Result<Option<Entry>, Fault>) -> Answer {
    match found {
        Ok(Some(entry)) => Answer::Entry(entry),
        Ok(None) => Answer::Nothing,
        Err(fault) => Answer::Fault(fault),
    }
}

/// How an answer is told.
pub fn told(alloc: Global, answer: Answer) -> Result<String, AllocError> {
    match answer {
        Answer::NoAsk => String::from_str(alloc, "no ask"),
        Answer::Done => String::from_str(alloc, "done"),
        Answer::Nothing => String::from_str(alloc, "none"),
        Answer::Number(number) => format!(in alloc; "{number}"),
        Answer::Is(true) => String::from_str(alloc, "yes"),
        Answer::Is(false) => String::from_str(alloc, "no"),
        Answer::Cell(cell) => format!(in alloc; "{cell}"),
        Answer::Entry(entry) => told_entry(alloc, &entry),
        Answer::Front(front) => told_front(alloc, &front),
        Answer::Span(span) => told_span(alloc, &span),
        Answer::Fault(fault) => told_fault(alloc, &fault),
        Answer::Tried { named, is_passed } => {
            let passed = if is_passed { "some" } else { "none" };
            format!(in alloc; "named {named} passed {passed}")
        }
        Answer::Hides(at) => format!(in alloc; "hidden by {at}"),
    }
}

fn told_entry(alloc: Global, entry: &Entry) -> Result<String, AllocError> {
    let Entry {
        block,
        place,
        key,
        last,
        tag,
    } = *entry;
    let mut digits = String::new(alloc);
    for byte in &tag {
        digits.push_str(format!(in alloc; "{byte:02x}")?.as_str())?;
    }
    format!(in alloc; "{key} {last} {digits} at {block} {place}")
}

fn told_front(alloc: Global, front: &Front) -> Result<String, AllocError> {
    match front {
        Front::At(entry) => told_entry(alloc, entry),
        Front::Open(count, Some(greatest)) => format!(in alloc; "open {count} {greatest}"),
        Front::Open(count, None) => format!(in alloc; "open {count}"),
        Front::Full(greatest) => format!(in alloc; "full {greatest}"),
    }
}

fn told_span(alloc: Global, span: &Span) -> Result<String, AllocError> {
    let Span {
        level,
        digit,
        low,
        high,
    } = *span;
    format!(in alloc; "{level} {digit} from {low} to {high}")
}

/// How a fault is told.
pub fn told_fault(alloc: Global, fault: &Fault) -> Result<String, AllocError> {
    match fault {
        Fault::Tampered(evidence) => {
            let (rule, cell, found) = (evidence.rule, evidence.cell, evidence.found);
            format!(in alloc; "rule {rule} cell {cell} {found}")
        }
        Fault::Failed => String::from_str(alloc, "failed"),
    }
}
