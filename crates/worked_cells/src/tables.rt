//! What bytes mean, and where the parts of a volume lie.
ghost use Rattle.cell_types.specs.declared.geometry.TheConstants.{FIRST_VERSION, NEWEST_VERSION};

use crate::acts::{Form, Question};
use crate::answers::{Answer, hexadecimal};
use crate::parts::cell_of;
use cell_types::{
    Cell, FIRST_VERSION, Geometry, NEWEST_VERSION, RecordCell, address_of, content, content_of,
    decode, encode, is_well_formed,
};
use std::alloc::{AllocError, Global};

/// The answer to a question.
pub fn answer(alloc: Global, question: &Question) -> Result<Answer, AllocError> {
    match *question {
        Question::Digits(number) => digits(alloc, number),
        Question::Record(at, cell) => record_at(alloc, at, cell),
        Question::Address(cell) => Ok(Answer::Number(u64::from(address_of(cell)))),
        Question::Content(cell) => held(alloc, cell),
        Question::Layout(form) => match geometry(&form) {
            Some(geometry) => layout(alloc, &geometry),
            None => Ok(Answer::Nothing),
        },
        Question::Slot(slot, form) => match geometry(&form) {
            Some(geometry) => cells_of_slot(alloc, slot, &geometry),
            None => Ok(Answer::Nothing),
        },
        Question::List(list, form) => match geometry(&form) {
            Some(geometry) => Ok(start_of_list(list, &geometry)),
            None => Ok(Answer::Nothing),
        },
    }
}

/// The line of a cell, which is its 32 digits.
fn digits(alloc: Global, number: u128) -> Result<Answer, AllocError> {
    match cell_of(number) {
        Some(cell) => Ok(Answer::Text(format!(in alloc; "{cell}")?)),
        None => Ok(Answer::Nothing),
    }
}

/// The record that a cell holds, with what its own encoding is if that is another cell.
fn record_at(alloc: Global, at: u32, cell: Cell) -> Result<Answer, AllocError> {
    let Some(value) = decode(cell, at) else {
        return Ok(Answer::Nothing);
    };
    if !is_well_formed(&value, at) {
        return Ok(Answer::Failed);
    }
    let again = encode(value, at);
    if again != cell {
        return Ok(Answer::Other(at, again));
    }
    Ok(Answer::Text(text_of_record(alloc, &value)?))
}

/// A record's kind and its fields.
fn text_of_record(alloc: Global, value: &RecordCell) -> Result<String, AllocError> {
    match *value {
        RecordCell::Volume {
            version,
            slots,
            lists,
            cells,
        } => format!(in alloc; "volume {version} {slots} {lists} {cells}"),
        RecordCell::Reserve { start, length } => format!(in alloc; "reserve {start} {length}"),
        RecordCell::Commit { bytes, journal } => format!(in alloc; "commit {bytes} {journal}"),
        RecordCell::Abandon => "abandon".to_string(alloc),
        RecordCell::Done { slot } => format!(in alloc; "done {slot}"),
        RecordCell::Posting { key, last, tag } => text_of_posting(alloc, key, last, tag),
        RecordCell::Jump { target } => format!(in alloc; "jump {target}"),
        RecordCell::Bucket { slot, fingerprint } => text_of_bucket(alloc, slot, fingerprint),
        RecordCell::Child { target } => format!(in alloc; "child {target}"),
        RecordCell::Stamp { seconds } => format!(in alloc; "stamp {seconds}"),
    }
}

/// A posting's key, its last ordinal and its tag.
fn text_of_posting(alloc: Global, key: u32, last: u8, tag: [u8; 6]) -> Result<String, AllocError> {
    let tag = hexadecimal(alloc, &tag)?;
    format!(in alloc; "posting {key} {last} {tag}")
}

/// A bucket's slot and its fingerprint.
fn text_of_bucket(alloc: Global, slot: u32, fingerprint: [u8; 7]) -> Result<String, AllocError> {
    let fingerprint = hexadecimal(alloc, &fingerprint)?;
    format!(in alloc; "bucket {slot} {fingerprint}")
}

/// How many bytes of a document a cell holds, and these; with the cell of these bytes if that is another one.
fn held(alloc: Global, cell: Cell) -> Result<Answer, AllocError> {
    let Some(held) = content_of(cell) else {
        return Ok(Answer::Nothing);
    };
    let Some(bytes) = held.bytes.get(..usize::from(held.length)) else {
        return Ok(Answer::Failed);
    };
    if bytes.is_empty() || bytes.len() > 15 {
        return Ok(Answer::Failed);
    }
    let again = content(bytes);
    if again != cell {
        return Ok(Answer::Other(0, again));
    }
    let bytes = hexadecimal(alloc, &held.bytes)?;
    Ok(Answer::Text(format!(in alloc; "{} {bytes}", held.length)?))
}

/// The geometry of this form, where there is one.
fn geometry(form: &Form) -> Option<Geometry> {
    let version = form.version;
    if version < FIRST_VERSION || version > NEWEST_VERSION {
        return None;
    }
    Geometry::new(form.slots, form.lists, form.cells, version)
}

/// What a layout is asked for, and where its root node and its pool begin.
fn layout(alloc: Global, geometry: &Geometry) -> Result<Answer, AllocError> {
    let (slots, lists, cells) = (geometry.slots(), geometry.lists(), geometry.cells());
    let version = geometry.version();
    let (root, pool) = (geometry.root_at(), geometry.pool_at());
    Ok(Answer::Text(format!(in alloc;
        "version {version}, {slots} {lists} {cells}, root {root}, pool {pool}"
    )?))
}

/// The four cells of a slot.
fn cells_of_slot(alloc: Global, slot: u32, geometry: &Geometry) -> Result<Answer, AllocError> {
    if slot >= geometry.slots() {
        return Ok(Answer::Nothing);
    }
    let (reserve, outcome) = (geometry.reserve_at(slot), geometry.outcome_at(slot));
    let (done, spare) = (geometry.done_at(slot), geometry.spare_at(slot));
    Ok(Answer::Text(format!(in alloc; "{reserve} {outcome} {done} {spare}")?))
}

/// Where a list begins; the time list, where there is one, has the number behind the others.
fn start_of_list(list: u16, geometry: &Geometry) -> Answer {
    if list < geometry.lists() {
        return Answer::Number(u64::from(geometry.list_at(list)));
    }
    if list > geometry.lists() || !geometry.is_stamped() {
        return Answer::Nothing;
    }
    Answer::Number(u64::from(geometry.time_at()))
}
