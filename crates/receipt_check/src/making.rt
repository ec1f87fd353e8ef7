//! Makes a receipt: the cells that a document's being kept rests on, so that whoever has the device can check it.
//!
//! The document is the one that a look-up of the identifier gives. Of `a`, `hello world` on the volume of 8 slots and 2
//! lists the receipt lists
//!
//!     0, 4, 5, 6      the volume cell, and the slot's reserve, commit and done cell
//!     36, 37, 560     its two postings, and its bucket
//!     580             its stored bytes
//!
//! **How.** The document is located, which settles the volume, goes along the identifier's path and reads the document
//! whole. It is read again as one that is kept, and its body is at hand from then on; then its cells are read once more,
//! and listed with the others that its being kept rests on (`receipt_cells`). So each of its cells is read three times.
//! And the list alone is judged, as whoever checks the receipt will judge it. Over a device that tells what stands in it
//! the list shows the document; whatever a device answers, nothing goes out that does not.
//!
//! **Which cells.** Cell 0; the slot's log cells and the document; for each posting its list's blocks from their first
//! place up to it, or whole with the one jump cell taken; the buckets and child cells of the path down to the slot's
//! bucket; and of a bucket that is passed with the same fingerprint that slot's log cells and document. Each of these,
//! and no other: `ListsNeeded`.
//!
//! **A document that is not kept** has no receipt. It was found by its path, so its postings do not exist or one of
//! them has no trail: evidence, by the rule of trails at the slot's done cell. A look-up names none there.
//!
//! `specs/Making.antt` says how the making may end, and `receipts_are_accepted` what a receipt is worth.
ghost use Rattle.std.specs.Prelude.{◌<◌, ◌^◌, length};
ghost use Rattle.volume_meaning.specs.Documents.{IsIdentifier};
ghost use Rattle.receipt_check.specs.Making.{MakesReceipt};
ghost use Rattle.receipt_check.specs.Judging.{GivesReceipt, LimitEnds};

use crate::listing::{list_directly, shows_document};
use crate::naming::name_unkept;
use cell_types::{Refusal, memory};
use document_store::Text;
use kept_documents::AskFault;
use receipt_text::{ListedCells, MAX_RECEIPT_CELLS, Receipt};
use record_query::locate;
use std::alloc::Global;
use worm_device::Device;

/// Looks the document with this identifier up, and makes the receipt of it: the written cells that its being kept rests
/// on. A look-up settles the volume first.
///
/// # Errors
///
/// `NotFormatted`, `NotAVolume` and `WrongSize` by cell 0; `Tampered` where a look-up names a cell, and where the
/// document is there but not each of its postings has a trail (13, at the done cell of its slot); `Absent` where no
/// document on the identifier's path has it; `ReceiptTooLong` where more than 1,000,000 cells would be listed;
/// `DeviceFault`; `NoMemory`.
pub fn make_receipt<D: Device>(alloc: Global, device: &mut D, id: &[u8]) -> Result<Receipt, Refusal>
    requires { IsIdentifier id.now }
    ensures { MakesReceipt id.now (D.state device.old) (D.state device.new) result }
{
    let slot = match locate(device, id) {
        Ok(slot) => slot,
        Err(refusal) => return Err(refusal),
    };
    match receipt_of_slot(alloc, device, slot, id) {
        Ok(Some(receipt)) => within_limit(receipt),
        Ok(None) => Err(name_unkept(slot)),
        Err(AskFault::NoMemory(lack)) => Err(Refusal::from(lack)),
        Err(AskFault::ReadFault) => Err(Refusal::DeviceFault),
    }
}

/// The receipt of the document with this identifier in this slot, `None` where it is not kept.
fn receipt_of_slot<D: Device>(
    alloc: Global,
    device: &mut D,
    slot: u32,
    id: &[u8],
) -> Result<Option<Receipt>, AskFault>
    ensures { GivesReceipt slot id.now (D.state device.old) (D.state device.new) result }
{
    let cells = device.cells();
    let identifier = memory::from_slice(alloc, id)?;
    let mut listed = ListedCells::new(alloc);
    let kept = match list_directly(alloc, device, slot, id, &mut listed) {
        Ok(kept) => kept,
        Err(why) => return Err(why),
    };
    let Some(_bytes) = kept else {
        return Ok(None);
    };
    // Known of listed cells once they are counted: their addresses rise.
    let _count = listed.len();
    // Only a device that does not tell what stands in it comes to this no, or to the one below: there each listed cell
    // stands, and the list keeps the document by itself.
    if let Some(_beyond) = listed.first_from(cells) {
        return Ok(None);
    }
    let receipt = Receipt {
        slot,
        identifier: Text::new(identifier),
        cells: listed,
    };
    match shows_document(alloc, &receipt, cells) {
        Ok(true) => Ok(Some(receipt)),
        Ok(false) => Ok(None),
        Err(lack) => Err(AskFault::NoMemory(lack)),
    }
}

/// The receipt, unless it has more cells than it may have.
fn within_limit(receipt: Receipt) -> Result<Receipt, Refusal>
    requires { length receipt.cells < 2 ^ 32 }
    ensures { LimitEnds receipt result }
{
    let count = receipt.cells.len();
    if count > MAX_RECEIPT_CELLS as usize {
        return Err(Refusal::ReceiptTooLong(count as u32));
    }
    Ok(receipt)
}
