//! Devices with cells that somebody wrote.
use cell_types::Cell;
use std::alloc::Global;
use std::test::Fail;
use worm_device::Device;
use worm_memory::MemoryDevice;

/// A cell's number, and the bytes that stand there.
pub(crate) type Written = (u32, [u8; 16]);

/// A device of 1,000 cells in which these are written.
pub(crate) fn device_with(
    alloc: Global,
    cells: &[Written],
    more: &[Written],
) -> Result<MemoryDevice, Fail> {
    let mut device = MemoryDevice::new(alloc, 1_000)?;
    device.reserve(64)?;
    for &(at, bytes) in cells.iter().chain(more) {
        if at < device.cells() {
            let value = Cell::from_bytes(bytes).ok_or("a blank cell")?;
            let _ = device.foreign(at, value)?;
        }
    }
    Ok(device)
}
