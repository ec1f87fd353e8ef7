//! The lists of words on the small volume of 8 slots and 2 lists on 1,000 cells.
use crate::answer::{Answer, told, told_fault};
use cell_types::{FIRST_VERSION, Fault, Geometry, MAX_SLOTS, Volume};
use jump_index::Bounds;
use posting_list::{SoughtTerms, TermLists};
use std::alloc::{AllocError, Global};
use volume_meaning::WordRule;
use word_reader::words;
use worm_device::Direct;
use worm_memory::MemoryDevice;
use zigzag_join::Lists;

/// What the lists of some words answer, and how often they were asked for a next slot and whether they have one.
#[derive(Clone, Copy)]
struct Asked {
    next: Result<Option<u32>, Fault>,
    has: Result<bool, Fault>,
    common: Result<Option<u32>, Fault>,
    next_asks: u64,
    has_asks: u64,
}

/// Which list is asked for which slot; which slots are below the horizon; and where blocks may lie.
#[derive(Clone, Copy)]
pub struct Question {
    pub horizon: u32,
    pub which: u32,
    pub slot: u32,
    pub bounds: Bounds,
}

/// The small volume.
fn small_volume() -> Option<Volume> {
    let geometry = Geometry::new(8, 2, 1_000, FIRST_VERSION)?;
    Some(Volume {
        version: FIRST_VERSION,
        geometry,
    })
}

/// The words of a text, as they are looked for.
fn sought(alloc: Global, volume: &Volume, text: &str) -> Result<SoughtTerms, AllocError> {
    let Ok(terms) = words(alloc, text.as_bytes(), WordRule::Ascii) else {
        return Err(AllocError);
    };
    let Ok(sought) = SoughtTerms::new(alloc, volume, &terms) else {
        return Err(AllocError);
    };
    Ok(sought)
}

/// Asks the list of this number for the next slot at or past one, and whether it has that one; and all lists for one
/// that they have in common. Tells what they answer.
pub fn ask(
    alloc: Global,
    device: &mut MemoryDevice,
    question: Question,
    text: &str,
) -> Result<String, AllocError> {
    let Some(volume) = small_volume() else {
        return told(alloc, Answer::NoAsk);
    };
    let Question {
        horizon,
        which,
        slot,
        bounds,
    } = question;
    let sought = sought(alloc, &volume, text)?;
    let mut view = Direct::new(device);
    let mut lists = TermLists::new(&mut view, &sought, volume, horizon, bounds);
    if which >= lists.count() || slot >= MAX_SLOTS {
        return told(alloc, Answer::NoAsk);
    }
    let next = lists.next(which, slot);
    if which >= lists.count() {
        return told(alloc, Answer::NoAsk);
    }
    let has = lists.has(which, slot);
    if lists.count() == 0 {
        return told(alloc, Answer::NoAsk);
    }
    let common = lists.next_common(slot);
    let asked = Asked {
        next,
        has,
        common,
        next_asks: lists.next_asks,
        has_asks: lists.has_asks,
    };
    told_asked(alloc, &asked)
}

/// What lists were asked, and how often.
fn told_asked(alloc: Global, asked: &Asked) -> Result<String, AllocError> {
    let next = told_slot(alloc, asked.next)?;
    let has = match asked.has {
        Ok(true) => String::from_str(alloc, "yes")?,
        Ok(false) => String::from_str(alloc, "no")?,
        Err(fault) => told_fault(alloc, &fault)?,
    };
    let common = told_slot(alloc, asked.common)?;
    let (next_asks, has_asks) = (asked.next_asks, asked.has_asks);
    format!(in alloc; "{next}, {has}, {common}, {next_asks} {has_asks}")
}

fn told_slot(alloc: Global, slot: Result<Option<u32>, Fault>) -> Result<String, AllocError> {
    match slot {
        Ok(Some(slot)) => format!(in alloc; "{slot}"),
        Ok(None) => String::from_str(alloc, "none"),
        Err(fault) => told_fault(alloc, &fault),
    }
}

/// Asks the list of this number alone whether it has the slot.
pub fn ask_whether_it_has(
    alloc: Global,
    device: &mut MemoryDevice,
    question: Question,
    text: &str,
) -> Result<Answer, AllocError> {
    let Some(volume) = small_volume() else {
        return Ok(Answer::NoAsk);
    };
    let sought = sought(alloc, &volume, text)?;
    let mut view = Direct::new(device);
    let mut lists = TermLists::new(
        &mut view,
        &sought,
        volume,
        question.horizon,
        question.bounds,
    );
    if question.which >= lists.count() || question.slot >= MAX_SLOTS {
        return Ok(Answer::NoAsk);
    }
    Ok(match lists.has(question.which, question.slot) {
        Ok(has) => Answer::Is(has),
        Err(fault) => Answer::Fault(fault),
    })
}
