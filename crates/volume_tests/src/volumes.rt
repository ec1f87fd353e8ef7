//! The small volume in memory, and what a stranger says of the text of a receipt.
use cell_types::FIRST_VERSION;
use document_store::is_identifier;
use ingest_engine::{format_volume, ingest};
use receipt_check::{CheckRefusal, check_receipt};
use receipt_text::{ReceiptFault, read_receipt};
use std::alloc::Global;
use std::test::Fail;
use volume_meaning::MAX_BODY_BYTES;
use worm_device::Device;
use worm_memory::MemoryDevice;

/// What a stranger says of a text.
#[derive(Clone, Copy, Debug, PartialEq, Eq)]
pub(crate) enum Answer {
    /// The document of this slot is kept, with a body of so many bytes.
    Accepted(u32, u32),
    BadLine(u32),
    CellDiffers(u32),
    NotShown(u32),
    Unanswered,
}

/// The small volume: 8 slots and 2 lists on 1,000 cells, with the document `a`, `hello world`.
pub(crate) fn small_volume(alloc: Global) -> Result<MemoryDevice, Fail> {
    let mut device = MemoryDevice::new(alloc, 1_000)?;
    device.reserve(1_000)?;
    format_volume(&mut device, 8, 2, FIRST_VERSION)?;
    store(alloc, &mut device, b"a", b"hello world")?;
    Ok(device)
}

/// Stores a document.
fn store(alloc: Global, device: &mut MemoryDevice, id: &[u8], body: &[u8]) -> Result<u32, Fail> {
    if body.len() > MAX_BODY_BYTES {
        return Err("the body is too long".into());
    }
    if !is_identifier(id) {
        return Err("no identifier".into());
    }
    let slot = ingest(alloc, device, id, None, body)?;
    Ok(slot)
}

/// What a stranger who has the device says of the text.
pub(crate) fn answer_to(alloc: Global, device: &mut MemoryDevice, text: &[u8]) -> Answer {
    let receipt = match read_receipt(alloc, text, device.cells()) {
        Ok(receipt) => receipt,
        Err(ReceiptFault::BadReceipt(line)) => return Answer::BadLine(line),
        Err(ReceiptFault::NoMemory(_)) => return Answer::Unanswered,
    };
    match check_receipt(alloc, device, &receipt) {
        Ok(checked) => Answer::Accepted(checked.slot, checked.bytes),
        Err(CheckRefusal::CellDiffers(cell)) => Answer::CellDiffers(cell),
        Err(CheckRefusal::NotShown(slot)) => Answer::NotShown(slot),
        Err(_) => Answer::Unanswered,
    }
}
