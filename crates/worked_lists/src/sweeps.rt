//! What somebody else may write into the blocks of a list: each blank cell of a block gets each forged cell in turn.
//! Then keys are found, or the cell is named; and a crash takes all of that again.
use crate::answer::Answer;
use crate::growing::{Growing, STEP, Unplanned, plan_keys};
use crate::laying::{jump, posting, put, put_planned};
use crate::searches::{List, are_found_or_named};
use cell_types::{Cell, Fault};
use std::alloc::{AllocError, Global};
use worm_memory::MemoryDevice;

/// How many keys a block has.
const BLOCK_KEYS: u32 = 128;

/// The cells that somebody may write at a place: besides one that is no record, postings with these keys and pointers
/// to these blocks.
#[derive(Clone, Copy)]
pub struct Forged {
    pub keys: [u32; 2],
    pub targets: [u32; 4],
}

impl Forged {
    /// The cells at this place.
    fn cells(&self, at: u32) -> [Option<Cell>; 7] {
        let [rising, falling] = self.keys;
        let [one, two, three, four] = self.targets;
        [
            Cell::from_bytes([0xff; 16]),
            Some(posting(rising, at)),
            Some(posting(falling, at)),
            Some(jump(one, at)),
            Some(jump(two, at)),
            Some(jump(three, at)),
            Some(jump(four, at)),
        ]
    }
}

/// How it came out.
#[derive(Clone, Copy)]
enum Outcome {
    /// The cell was written already.
    Taken,
    /// The insertion named the cell.
    Named,
    /// The key went in, and each that is looked up is found, or names the cell.
    Passed,
    /// A key was not found, or another cell was named.
    Hides,
}

/// Tries the cells of a block, by searches for these keys. Answers how many cells were tried.
pub fn try_searches(
    device: &mut MemoryDevice,
    list: List,
    forged: Forged,
    block: u32,
    keys: &[u32],
) -> Result<Answer, AllocError> {
    let mut tried: u32 = 0;
    for place in 0..256 {
        let at = block.saturating_add(place);
        for value in forged.cells(at).into_iter().flatten() {
            match try_search(device, list, at, value, keys)? {
                Outcome::Passed => tried = tried.saturating_add(1),
                Outcome::Hides => return Ok(Answer::Hides(at)),
                Outcome::Taken | Outcome::Named => {}
            }
        }
    }
    Ok(Answer::Number(u64::from(tried)))
}

/// Tries one cell by searches.
fn try_search(
    device: &mut MemoryDevice,
    list: List,
    at: u32,
    value: Cell,
    keys: &[u32],
) -> Result<Outcome, AllocError> {
    if !put(device, at, value)? {
        return Ok(Outcome::Taken);
    }
    if !are_found_or_named(device, list, keys, at) {
        return Ok(Outcome::Hides);
    }
    take_back(device)?;
    Ok(Outcome::Passed)
}

/// A crash takes what is not sure.
fn take_back(device: &mut MemoryDevice) -> Result<(), AllocError> {
    if device.reserve(300).is_err() || device.crash(&[]).is_err() {
        return Err(AllocError);
    }
    Ok(())
}

/// Tries the cells of a block of a list that grows, before its next key; or those of pointers alone, each before the
/// first key that it is for, where that is greater than all of the list.
pub fn try_insertions(
    alloc: Global,
    device: &mut MemoryDevice,
    growing: &Growing,
    forged: Forged,
    number: u32,
    is_of_spans: bool,
) -> Result<Answer, AllocError> {
    let keys = looked_up(alloc, growing.keys, number)?;
    let mut named: u32 = 0;
    let mut is_passed = false;
    for place in 0..256 {
        let at = block_at(growing, number).saturating_add(place);
        let key = if is_of_spans {
            first_of_span(growing, number, place)
        } else {
            Some(growing.keys.saturating_mul(STEP))
        };
        let Some(key) = key else { continue };
        for value in forged.cells(at).into_iter().flatten() {
            match try_insertion(alloc, device, growing, keys.as_slice(), at, value, key)? {
                Outcome::Taken => {}
                Outcome::Named => named = named.saturating_add(1),
                Outcome::Passed => is_passed = true,
                Outcome::Hides => return Ok(Answer::Hides(at)),
            }
        }
    }
    Ok(Answer::Tried { named, is_passed })
}

/// Where a block of the list begins, and past the last one, where the next would.
fn block_at(growing: &Growing, number: u32) -> u32 {
    match number.checked_sub(1) {
        None => growing.list.head,
        Some(before) => growing
            .list
            .bounds
            .pool
            .saturating_add(before.saturating_mul(256)),
    }
}

/// The first key that a pointer of a full block is for, where it is greater than each of the list.
fn first_of_span(growing: &Growing, number: u32, place: u32) -> Option<u32> {
    let last = growing.keys.checked_sub(1)?;
    if number >= last / BLOCK_KEYS || place >= 248 {
        return None;
    }
    let pointer = place.checked_sub(128)?;
    let greatest = number
        .saturating_mul(BLOCK_KEYS)
        .saturating_add(BLOCK_KEYS - 1)
        .saturating_mul(STEP);
    let width = 16_u32.saturating_pow(pointer / 15);
    let first = greatest.saturating_add(width.saturating_mul(pointer % 15 + 1));
    if first <= last.saturating_mul(STEP) {
        None
    } else {
        Some(first)
    }
}

/// Tries one cell by the insertion of a key.
fn try_insertion(
    alloc: Global,
    device: &mut MemoryDevice,
    growing: &Growing,
    looked_up: &[u32],
    at: u32,
    value: Cell,
    key: u32,
) -> Result<Outcome, AllocError> {
    if !put(device, at, value)? {
        return Ok(Outcome::Taken);
    }
    let outcome = match plan_keys(alloc, device, growing.list, growing.pool, key, 1) {
        Ok(planned) => {
            let mut list = growing.list;
            list.bounds.edge = planned.pool.next;
            let is_written = put_planned(device, planned.cells.as_slice())?;
            if is_written && are_found_or_named(device, list, looked_up, at) {
                Outcome::Passed
            } else {
                Outcome::Hides
            }
        }
        Err(Unplanned::Fault(Fault::Tampered(evidence))) if evidence.cell == at => Outcome::Named,
        Err(_) => Outcome::Hides,
    };
    take_back(device)?;
    Ok(outcome)
}

/// The keys that are looked up where somebody wrote into a block: each of that block, and the first and the last of
/// each other one. All of them behind each insertion would take some minutes.
fn looked_up(alloc: Global, keys: u32, number: u32) -> Result<Vec<u32>, AllocError> {
    let mut all = Vec::new(alloc);
    for slot in 0..keys {
        let place = slot % BLOCK_KEYS;
        let is_at_end = place == 0 || place == BLOCK_KEYS - 1 || slot == keys - 1;
        if slot / BLOCK_KEYS == number || is_at_end {
            all.push(slot.saturating_mul(STEP))?;
        }
    }
    Ok(all)
}
