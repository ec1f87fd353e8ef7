//! Calls of a device, whichever it is.
use crate::acts::Call;
use crate::answers::{Answer, hexadecimal, of_read, of_row, of_write};
use crate::parts::{cell_of, cells};
use cell_types::Cell;
use std::alloc::{AllocError, Global};
use worm_device::Device;

/// What a call of a device comes to. Of cells that the device does not have nothing is asked.
pub fn call<D: Device>(
    alloc: Global,
    device: &mut D,
    call: &Call<'_>,
) -> Result<Answer, AllocError> {
    match *call {
        Call::Cells => Ok(Answer::Number(u64::from(device.cells()))),
        Call::Read(at) => Ok(read(device, at)),
        Call::Write(at, value) => Ok(write(device, at, value)),
        Call::Sync => Ok(Answer::of(device.sync())),
        Call::WriteRow(at, values) => match cells(alloc, values)? {
            Some(values) => Ok(write_row(device, at, &values)),
            None => Ok(Answer::Nothing),
        },
        Call::ReadRow(at, count) => {
            let mut found = vec![in alloc; None; count as usize]?;
            Ok(match read_row(device, at, &mut found) {
                Answer::Done => Answer::All(found),
                other => other,
            })
        }
        Call::Own(at, count) => {
            let mut found = vec![in alloc; None; count as usize]?;
            Ok(match read_row(device, at, &mut found) {
                Answer::Done => are_numbered(at, &found),
                other => other,
            })
        }
        Call::Bytes(at, count) => {
            let mut bytes = vec![in alloc; 0u8; 16 * (count as usize)]?;
            Ok(match read_bytes(device, at, &mut bytes) {
                Answer::Done => Answer::Text(hexadecimal(alloc, &bytes)?),
                other => other,
            })
        }
    }
}

fn read<D: Device>(device: &mut D, at: u32) -> Answer {
    if at >= device.cells() {
        return Answer::Nothing;
    }
    of_read(device.read(at))
}

fn write<D: Device>(device: &mut D, at: u32, value: Cell) -> Answer {
    if at >= device.cells() {
        return Answer::Nothing;
    }
    of_write(device.write(at, value))
}

fn write_row<D: Device>(device: &mut D, at: u32, values: &[Cell]) -> Answer {
    if at > device.cells() || values.len() > (device.cells() - at) as usize {
        return Answer::Nothing;
    }
    of_row(device.write_row(at, values))
}

fn read_row<D: Device>(device: &mut D, at: u32, found: &mut [Option<Cell>]) -> Answer {
    if at > device.cells() || found.len() > (device.cells() - at) as usize {
        return Answer::Nothing;
    }
    Answer::of(device.read_row(at, found))
}

fn read_bytes<D: Device>(device: &mut D, at: u32, bytes: &mut [u8]) -> Answer {
    if at > device.cells() || bytes.len() / 16 > (device.cells() - at) as usize {
        return Answer::Nothing;
    }
    if bytes.len() % 16 != 0 {
        return Answer::Nothing;
    }
    Answer::of(device.read_bytes(at, bytes))
}

/// Whether each of these holds its own number, from this one on.
fn are_numbered(from: u32, found: &[Option<Cell>]) -> Answer {
    let mut at = from;
    for cell in found {
        if *cell != cell_of(u128::from(at)) {
            return Answer::Found(*cell);
        }
        at = at.saturating_add(1);
    }
    Answer::Done
}
