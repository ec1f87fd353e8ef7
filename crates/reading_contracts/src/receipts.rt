//! The text of a receipt.
ghost use Rattle.receipt_text.specs.Reading.{ReadReceiptEnds};

use receipt_text::{Receipt, ReceiptFault, read_receipt};
use std::alloc::Global;

/// `read_receipt`.
pub fn read_receipt_again(alloc: Global, text: &[u8], cells: u32) -> Result<Receipt, ReceiptFault>
    ensures { ReadReceiptEnds cells text.now result }
{
    read_receipt(alloc, text, cells)
}
