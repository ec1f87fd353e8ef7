//! What one block is asked.
ghost use Rattle.std.specs.Prelude.{◌≡◌, ◌≤◌, ◌+◌, ◌↔◌, IsTrue};
ghost use Rattle.worm_memory.specs.Device.{memory_of};

use crate::answer::{Answer, of_entry};
use cell_types::Fault;
use jump_block::{
    Front, KeptFronts, KnownFront, entry, first_at_least, first_from_kept, first_from_known,
    pointer, span,
};
use worm_device::{Device, Direct};
use worm_memory::MemoryDevice;

/// Whether the device has the 256 cells of a block.
pub fn has_block(device: &MemoryDevice, block: u32) -> bool
    ensures { IsTrue result ↔ block + 256 ≤ (memory_of device.now).cells }
{
    device.cells() >= 256 && block <= device.cells() - 256
}

/// The entry at a place.
pub fn read_entry(device: &mut MemoryDevice, block: u32, place: u32) -> Answer {
    if place >= 128 || !has_block(device, block) {
        return Answer::NoAsk;
    }
    of_entry(entry(&mut Direct::new(device), block, place as u8))
}

/// Where a pointer leads.
pub fn read_pointer(device: &mut MemoryDevice, block: u32, level: u32, digit: u32) -> Answer {
    if level >= 8 || digit == 0 || digit > 15 || !has_block(device, block) {
        return Answer::NoAsk;
    }
    match pointer(&mut Direct::new(device), block, level as u8, digit as u8) {
        Ok(Some(target)) => Answer::Number(u64::from(target)),
        Ok(None) => Answer::Nothing,
        Err(fault) => Answer::Fault(fault),
    }
}

/// The span of a key behind a block's greatest one.
pub fn span_of(greatest: u32, key: u32) -> Answer {
    if key <= greatest {
        return Answer::NoAsk;
    }
    Answer::Span(span(greatest, key))
}

fn of_front(found: Result<Front, Fault>) -> Answer {
    match found {
        Ok(front) => Answer::Front(front),
        Err(fault) => Answer::Fault(fault),
    }
}

/// The first entry with a key at or past this one.
pub fn first(device: &mut MemoryDevice, block: u32, key: u32) -> Answer {
    if !has_block(device, block) {
        return Answer::NoAsk;
    }
    of_front(first_at_least(&mut Direct::new(device), block, key))
}

/// A front of which nothing is known.
fn unknown(block: u32) -> KnownFront
    ensures { result ≡ record { block = block; count = 0; greatest = 0 } }
{
    KnownFront {
        block,
        count: 0,
        greatest: 0,
    }
}

/// The same by what is known of the front, of which nothing is known before.
pub fn first_known(device: &mut MemoryDevice, block: u32, key: u32) -> Answer {
    if !has_block(device, block) {
        return Answer::NoAsk;
    }
    let mut front = unknown(block);
    of_front(first_from_known(&mut Direct::new(device), &mut front, key))
}

/// The same behind a search for another key.
pub fn next_known(device: &mut MemoryDevice, block: u32, before: u32, key: u32) -> Answer {
    if !has_block(device, block) {
        return Answer::NoAsk;
    }
    let mut view = Direct::new(device);
    let mut front = unknown(block);
    if let Err(fault) = first_from_known(&mut view, &mut front, before) {
        return Answer::Fault(fault);
    }
    of_front(first_from_known(&mut view, &mut front, key))
}

/// The same by what is kept of fronts, in the last place for one.
pub fn first_kept(device: &mut MemoryDevice, block: u32, key: u32) -> Answer {
    if !has_block(device, block) {
        return Answer::NoAsk;
    }
    let mut fronts = KeptFronts::new();
    of_front(first_from_kept(&mut Direct::new(device), &mut fronts, 8, block, key))
}

/// The same behind a search for another key.
pub fn next_kept(device: &mut MemoryDevice, block: u32, before: u32, key: u32) -> Answer {
    if !has_block(device, block) {
        return Answer::NoAsk;
    }
    let mut view = Direct::new(device);
    let mut fronts = KeptFronts::new();
    if let Err(fault) = first_from_kept(&mut view, &mut fronts, 8, block, before) {
        return Answer::Fault(fault);
    }
    of_front(first_from_kept(&mut view, &mut fronts, 8, block, key))
}
