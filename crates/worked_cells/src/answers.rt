//! What came of a line, and the text of it.
use cell_types::Cell;
use std::alloc::{AllocError, Global};
use worm_device::{Failed, RowWritten, Written};

/// What came of a line.
#[derive(Drop)]
pub enum Answer {
    Done,
    Failed,
    /// There is no such thing, or no such place.
    Nothing,
    Found(Option<Cell>),
    All(Vec<Option<Cell>>),
    Taken(Cell),
    Other(u32, Cell),
    Number(u64),
    Text(String),
}

impl Answer {
    /// What a call came to that answers nothing else.
    pub fn of<E: Drop>(done: Result<(), E>) -> Answer {
        match done {
            Ok(()) => Answer::Done,
            Err(_) => Answer::Failed,
        }
    }

    /// Its text.
    pub fn text(&self, alloc: Global) -> Result<String, AllocError> {
        match self {
            Answer::Done => "done".to_string(alloc),
            Answer::Failed => "failed".to_string(alloc),
            Answer::Nothing => "none".to_string(alloc),
            Answer::Found(found) => text_of_cell(alloc, *found),
            Answer::All(found) => text_of_cells(alloc, found),
            Answer::Taken(cell) => {
                let found = text_of_cell(alloc, Some(*cell))?;
                format!(in alloc; "taken {found}")
            }
            Answer::Other(at, cell) => {
                let found = text_of_cell(alloc, Some(*cell))?;
                format!(in alloc; "other {at} {found}")
            }
            Answer::Number(number) => format!(in alloc; "{number}"),
            Answer::Text(text) => text.as_str().to_string(alloc),
        }
    }
}

/// What a read came to.
pub fn of_read(read: Result<Option<Cell>, Failed>) -> Answer {
    match read {
        Ok(found) => Answer::Found(found),
        Err(_) => Answer::Failed,
    }
}

/// What a write came to.
pub fn of_write(written: Result<Written, Failed>) -> Answer {
    let Ok(written) = written else {
        return Answer::Failed;
    };
    match written {
        Written::Done => Answer::Done,
        Written::Taken(found) => Answer::Taken(found),
    }
}

/// What a row of writes came to.
pub fn of_row(written: Result<RowWritten, Failed>) -> Answer {
    let Ok(written) = written else {
        return Answer::Failed;
    };
    match written {
        RowWritten::Whole => Answer::Done,
        RowWritten::Other(at, found) => Answer::Other(at, found),
    }
}

/// The number of a cell in hexadecimal digits, without zeros in front.
pub fn text_of_cell(alloc: Global, found: Option<Cell>) -> Result<String, AllocError> {
    match found {
        Some(cell) => {
            let number = u128::from_be_bytes(cell.bytes());
            format!(in alloc; "{number:x}")
        }
        None => "blank".to_string(alloc),
    }
}

/// The same of each of these, with a space between.
fn text_of_cells(alloc: Global, found: &[Option<Cell>]) -> Result<String, AllocError> {
    let mut text = String::new(alloc);
    for cell in found {
        let next = text_of_cell(alloc, *cell)?;
        join(&mut text, " ", next.as_str())?;
    }
    Ok(text)
}

/// Puts a piece behind a text, with this between if there is something before it.
pub fn join(text: &mut String, between: &str, piece: &str) -> Result<(), AllocError> {
    if !text.is_empty() {
        text.push_str(between)?;
    }
    text.push_str(piece)
}

/// Two hexadecimal digits of each byte.
pub fn hexadecimal(alloc: Global, bytes: &[u8]) -> Result<String, AllocError> {
    let mut text = String::new(alloc);
    for byte in bytes {
        let digits = format!(in alloc; "{byte:02x}")?;
        text.push_str(digits.as_str())?;
    }
    Ok(text)
}
