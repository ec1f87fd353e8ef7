//! Cells that somebody writes into the device of a row.
use cell_types::{Cell, RecordCell, encode};
use std::alloc::AllocError;
use worm_device::{Device, Written};
use worm_memory::MemoryDevice;

/// The tag of each posting that is not written as a cell.
pub const TAG: [u8; 6] = [1, 2, 3, 4, 5, 6];

/// The posting with this key, of a slot with postings of ordinals up to 255, as it stands in a cell.
pub fn posting(key: u32, at: u32) -> Cell {
    let record = RecordCell::Posting {
        key,
        last: 255,
        tag: TAG,
    };
    encode(record, at)
}

/// The pointer to this block, as it stands in a cell.
pub fn jump(target: u32, at: u32) -> Cell {
    encode(RecordCell::Jump { target }, at)
}

/// Keys of which each is so much greater than the one before.
#[derive(Clone, Copy)]
pub struct Keys {
    pub first: u32,
    pub step: u32,
    pub count: u32,
}

impl Keys {
    /// The key of this number, from 0 on.
    pub fn at(&self, number: u32) -> u32 {
        self.first.saturating_add(number.saturating_mul(self.step))
    }
}

/// Writes a cell. Says whether it was blank, and is on the device.
pub fn put(device: &mut MemoryDevice, at: u32, value: Cell) -> Result<bool, AllocError> {
    if at >= device.cells() {
        return Ok(false);
    }
    if device.reserve(1).is_err() {
        return Err(AllocError);
    }
    Ok(matches!(device.foreign(at, value), Ok(Written::Done)))
}

/// Writes postings with these keys into a block, from place 0 on.
pub fn put_front(device: &mut MemoryDevice, block: u32, keys: Keys) -> Result<bool, AllocError> {
    for place in 0..keys.count {
        let at = block.saturating_add(place);
        if !put(device, at, posting(keys.at(place), at))? {
            return Ok(false);
        }
    }
    Ok(true)
}

/// Writes so many pointers to one block, one behind the other.
pub fn put_jumps(
    device: &mut MemoryDevice,
    from: u32,
    count: u32,
    target: u32,
) -> Result<bool, AllocError> {
    for next in 0..count {
        let at = from.saturating_add(next);
        if !put(device, at, jump(target, at))? {
            return Ok(false);
        }
    }
    Ok(true)
}

/// Writes cells that were planned. Says whether each was blank.
pub fn put_planned(device: &mut MemoryDevice, planned: &[(u32, Cell)]) -> Result<bool, AllocError> {
    for &(at, value) in planned {
        if !put(device, at, value)? {
            return Ok(false);
        }
    }
    Ok(true)
}

/// Makes sure what is written. Says whether that could be done.
pub fn make_sure(device: &mut MemoryDevice) -> bool {
    device.reserve(1).is_ok() && device.sync().is_ok()
}
