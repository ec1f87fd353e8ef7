//! What is done to a device in memory besides calls, and looked for there.
use crate::acts::Plan;
use crate::answers::{Answer, join, of_write, text_of_cell};
use crate::parts::numbers;
use cell_types::Cell;
use read_cache::{Cached, CellCache};
use std::alloc::{AllocError, Global};
use worm_device::{Device, Direct, View};
use worm_memory::{Change, Mark, MemoryDevice, Moment};

/// What comes of it.
pub fn carry_out(
    alloc: Global,
    device: &mut MemoryDevice,
    cache: &mut Option<CellCache>,
    plan: &Plan<'_>,
) -> Result<Answer, AllocError> {
    match *plan {
        Plan::Look(places) => match numbers(alloc, places)? {
            Some(places) => look(alloc, &mut Direct::new(device), &places),
            None => Ok(Answer::Nothing),
        },
        Plan::Kept(places) => match (numbers(alloc, places)?, cache) {
            (Some(places), Some(cache)) => look_by_way_of(alloc, device, cache, &places),
            _ => Ok(Answer::Nothing),
        },
        Plan::Crash(keep) => match numbers(alloc, keep)? {
            Some(keep) => crash(alloc, device, &keep),
            None => Ok(Answer::Nothing),
        },
        Plan::Changes => changes(alloc, device.changes()),
        Plan::Mark(number) => match device.marks().get(number as usize) {
            Some(mark) => text_of_mark(alloc, mark),
            None => Ok(Answer::Nothing),
        },
        Plan::ByPlan => Ok(Answer::Text(by_plan(alloc, device.kept_plan())?)),
        Plan::Room => Ok(Answer::Number(u64::from(device.room()))),
        Plan::Reserve(changes) => Ok(Answer::of(device.reserve(changes))),
        Plan::Begin => Ok(begin(device)),
        Plan::Fail(moment) => Ok(Answer::of(device.fail_at(moment))),
        Plan::Stop(moment) => {
            device.stop_after(moment);
            Ok(Answer::Done)
        }
        Plan::Before(moment, at, value) => Ok(foreign_before(device, moment, at, value)),
        Plan::Foreign(at, value) => Ok(foreign(device, at, value)),
    }
}

/// Begins a command, if there is room for its mark.
fn begin(device: &mut MemoryDevice) -> Answer {
    if !device.can_begin() {
        return Answer::Failed;
    }
    device.begin();
    Answer::Done
}

/// Plans that somebody else writes a cell.
fn foreign_before(device: &mut MemoryDevice, moment: Moment, at: u32, value: Cell) -> Answer {
    if at >= device.cells() {
        return Answer::Nothing;
    }
    Answer::of(device.foreign_before(moment, at, value))
}

/// Somebody else writes a cell.
fn foreign(device: &mut MemoryDevice, at: u32, value: Cell) -> Answer {
    if at >= device.cells() {
        return Answer::Nothing;
    }
    of_write(device.foreign(at, value))
}

/// A crash: how many cells it kept, and how many it could have taken.
fn crash(alloc: Global, device: &mut MemoryDevice, keep: &[u32]) -> Result<Answer, AllocError> {
    match device.crash(keep) {
        Ok(crash) => Ok(Answer::Text(format!(in alloc; "{} of {}", crash.kept, crash.unsure)?)),
        Err(_) => Ok(Answer::Failed),
    }
}

/// What a view shows in these cells, one after another.
fn look<V: View>(alloc: Global, view: &mut V, places: &[u32]) -> Result<Answer, AllocError> {
    let mut found = Vec::new(alloc);
    for at in places {
        if *at >= view.cells() {
            return Ok(Answer::Nothing);
        }
        let Ok(cell) = view.read(*at) else {
            return Ok(Answer::Failed);
        };
        found.push(cell)?;
    }
    Ok(Answer::All(found))
}

/// The same by way of kept cells, of which there are none at first.
fn look_by_way_of(
    alloc: Global,
    device: &mut MemoryDevice,
    cache: &mut CellCache,
    places: &[u32],
) -> Result<Answer, AllocError> {
    let mut below = Direct::new(device);
    look(alloc, &mut Cached::new(&mut below, cache), places)
}

/// Whether the command goes by its plan.
fn by_plan(alloc: Global, is_kept: bool) -> Result<String, AllocError> {
    if is_kept {
        return "kept".to_string(alloc);
    }
    "not kept".to_string(alloc)
}

/// The changes, with commas between.
fn changes(alloc: Global, changes: &[Change]) -> Result<Answer, AllocError> {
    let mut text = String::new(alloc);
    for change in changes {
        let next = text_of_change(alloc, change)?;
        join(&mut text, ", ", next.as_str())?;
    }
    Ok(Answer::Text(text))
}

/// A change of the record.
fn text_of_change(alloc: Global, change: &Change) -> Result<String, AllocError> {
    match *change {
        Change::Wrote { at, value } => {
            let value = text_of_cell(alloc, Some(value))?;
            format!(in alloc; "wrote {at} {value}")
        }
        Change::Foreign { at, value } => {
            let value = text_of_cell(alloc, Some(value))?;
            format!(in alloc; "foreign {at} {value}")
        }
        Change::Synced => "synced".to_string(alloc),
        Change::Lost { at } => format!(in alloc; "lost {at}"),
        Change::Crashed => "crashed".to_string(alloc),
    }
}

/// What was kept as a command began: steps and calls of the one before, and all changes, faults, foreign writes and reads.
fn text_of_mark(alloc: Global, mark: &Mark) -> Result<Answer, AllocError> {
    let (steps, calls, changes) = (mark.steps, mark.calls, mark.changes);
    let (faults, foreign, reads) = (mark.faults, mark.foreign_writes, mark.reads);
    Ok(Answer::Text(format!(in alloc; "{steps} {calls} {changes} {faults} {foreign} {reads}")?))
}
