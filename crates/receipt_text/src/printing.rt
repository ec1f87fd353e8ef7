//! The text of a receipt.
ghost use Rattle.std.specs.Prelude.{◌≡◌, ◌++◌, ◌∷◌, [], IfOk, OnOk};
ghost use Rattle.receipt_text.specs.Form.{cell_line, head_line, text_of_lines, text_of_receipt};

use crate::Receipt;
use cell_types::{Cell, NoMemory, memory};
use std::alloc::Global;

/// The text that spells the receipt. It is in the form that `read_receipt` takes where the receipt is one of a device:
/// `IsReceiptOn`.
pub fn text_of_receipt(alloc: Global, receipt: &Receipt) -> Result<Vec<u8>, NoMemory>
    ensures { IfOk result (λ text. text.items ≡ text_of_receipt receipt.now) }
{
    let text = lines(alloc, receipt)?;
    Ok(text)
}

/// The lines of the receipt.
fn lines(alloc: Global, receipt: &Receipt) -> Result<Vec<u8>, NoMemory>
    ensures { IfOk result (λ text. text.items ≡ text_of_receipt receipt.now) }
{
    let mut text = head(alloc, receipt.slot, receipt.identifier.bytes())?;
    receipt.cells.print(alloc, &mut text)?;
    let count = receipt.cells.len();
    let end = memory::format(alloc, format_args!("end {count}"))?;
    print_line(&mut text, end.as_bytes())?;
    Ok(text)
}

/// The line of the document.
fn head(alloc: Global, slot: u32, identifier: &[u8]) -> Result<Vec<u8>, NoMemory>
    ensures { IfOk result (λ text. text.items ≡ text_of_lines (head_line slot identifier.now ∷ [])) }
{
    let words = memory::format(alloc, format_args!("receipt {slot} "))?;
    let mut line = memory::from_slice(alloc, words.as_bytes())?;
    memory::extend_from_slice(&mut line, identifier)?;
    let mut text = Vec::new(alloc);
    print_line(&mut text, line.as_slice())?;
    Ok(text)
}

/// Appends a line, with its newline. Without memory it may be there without the newline.
pub(crate) fn print_line(text: &mut Vec<u8>, line: &[u8]) -> Result<(), NoMemory>
    ensures { OnOk result (text.new.items ≡ text.old.items ++ text_of_lines (line.now ∷ [])) }
{
    memory::extend_from_slice(text, line)?;
    memory::extend_from_slice(text, b"\n")
}

/// The line of a cell, without its newline.
pub(crate) fn line_of_cell(alloc: Global, at: u32, value: Cell) -> Result<Vec<u8>, NoMemory>
    ensures { IfOk result (λ text. text.items ≡ cell_line (at, value)) }
{
    let bytes = value.bytes();
    let mut digits = [0; 32];
    let Ok(()) = hex::encode_to_slice(bytes, &mut digits) else {
        unreachable!()
    };
    let mut line = memory::format(alloc, format_args!("{at} "))?.into_bytes();
    memory::extend_from_slice(&mut line, &digits)?;
    Ok(line)
}
