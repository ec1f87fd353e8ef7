//! A text, read as a receipt.
ghost use Rattle.receipt_text.specs.Reading.{ListingEnds, ReadReceiptEnds};

use crate::lines::{cell_within, cut_at, head_of, is_end_line};
use crate::{ListedCells, MAX_RECEIPT_CELLS, Receipt, ReceiptFault};
use cell_types::memory;
use document_store::Text;
use std::alloc::Global;

/// Cells that were read, with the line of the end.
#[derive(Drop)]
pub(crate) struct Listing<'a> {
    pub cells: ListedCells,
    /// How many they are.
    pub count: u32,
    /// What stands behind the line of the end.
    pub behind: &'a [u8],
}

/// The receipt that the text spells, each of its addresses below the number of cells.
pub fn read_receipt(alloc: Global, text: &[u8], cells: u32) -> Result<Receipt, ReceiptFault>
    ensures { ReadReceiptEnds cells text.now result }
{
    let Some(first) = cut_at(b'\n', text) else {
        return Err(ReceiptFault::BadReceipt(1));
    };
    let Some(head) = head_of(first.front) else {
        return Err(ReceiptFault::BadReceipt(1));
    };
    let listing = match read_cells(alloc, first.rest, cells) {
        Ok(listing) => listing,
        Err(fault) => return Err(fault),
    };
    if !listing.behind.is_empty() {
        return Err(ReceiptFault::BadReceipt(listing.count + 3));
    }
    let identifier = memory::from_slice(alloc, head.identifier)?;
    Ok(Receipt {
        slot: head.slot,
        identifier: Text::new(identifier),
        cells: listing.cells,
    })
}

/// The cells of a receipt, whose lines and the line of the end follow the line of the document.
fn read_cells(alloc: Global, text: &[u8], size: u32) -> Result<Listing<'_>, ReceiptFault>
    ensures { ListingEnds size text.now result }
{
    let mut cells = ListedCells::new(alloc);
    let mut next = 0;
    let mut rest = text;
    for count in 0..MAX_RECEIPT_CELLS {
        let Some(cut) = cut_at(b'\n', rest) else {
            return Err(ReceiptFault::BadReceipt(count + 2));
        };
        if is_end_line(cut.front, count) {
            return Ok(Listing {
                cells,
                count,
                behind: cut.rest,
            });
        }
        let Some(found) = cell_within(cut.front, next, size) else {
            return Err(ReceiptFault::BadReceipt(count + 2));
        };
        cells.add(found.at, found.value)?;
        next = found.at + 1;
        rest = cut.rest;
    }
    let Some(cut) = cut_at(b'\n', rest) else {
        return Err(ReceiptFault::BadReceipt(MAX_RECEIPT_CELLS + 2));
    };
    if !is_end_line(cut.front, MAX_RECEIPT_CELLS) {
        return Err(ReceiptFault::BadReceipt(MAX_RECEIPT_CELLS + 2));
    }
    Ok(Listing {
        cells,
        count: MAX_RECEIPT_CELLS,
        behind: cut.rest,
    })
}
