//! What stands on a device, read by a plain decoder of its own, which shares nothing with the crates.
use worm_device::Device;
use worm_memory::MemoryDevice;

/// The states of a slot.
#[derive(Clone, Copy, Debug, PartialEq, Eq)]
pub enum State {
    Unused,
    Reserved,
    Abandoned,
    Committed,
    Done,
    Broken,
}

/// The bytes of a cell, zeros where it is blank or not on the device.
fn bytes_at(device: &mut MemoryDevice, at: u32) -> [u8; 16] {
    if at >= device.cells() {
        return [0; 16];
    }
    match device.read(at) {
        Ok(Some(cell)) => cell.bytes(),
        _ => [0; 16],
    }
}

/// The bytes of a cell as one number, whose 32 hexadecimal digits they are. It is 0 where the cell is blank.
pub fn digits_at(device: &mut MemoryDevice, at: u32) -> u128 {
    u128::from_be_bytes(bytes_at(device, at))
}

/// The four cells of a slot, up to its done cell.
#[derive(Clone, Copy)]
struct SlotCells {
    reserve: [u8; 16],
    outcome: [u8; 16],
    done: [u8; 16],
}

/// What stands in the cells of this slot.
fn cells_of_slot(device: &mut MemoryDevice, slot: u32) -> SlotCells {
    let first = slot.saturating_mul(4);
    SlotCells {
        reserve: bytes_at(device, first.saturating_add(4)),
        outcome: bytes_at(device, first.saturating_add(5)),
        done: bytes_at(device, first.saturating_add(6)),
    }
}

/// The state of a slot, by the first byte of its cells.
pub fn state_of_slot(device: &mut MemoryDevice, slot: u32) -> State {
    let cells = cells_of_slot(device, slot);
    let [reserve, ..] = cells.reserve;
    let [outcome, ..] = cells.outcome;
    let [done, ..] = cells.done;
    match (reserve, outcome, done) {
        (0, 0, 0) => State::Unused,
        (2, 0, 0) => State::Reserved,
        (2, 4, 0) => State::Abandoned,
        (2, 3, 0) => State::Committed,
        (2, 3, 5) => State::Done,
        _ => State::Broken,
    }
}
