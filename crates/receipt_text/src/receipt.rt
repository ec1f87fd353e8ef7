//! A receipt, and why a text is none.
ghost use Rattle.std.specs.Prelude.{◌≡◌};
ghost use Rattle.receipt_text.specs.Form.{refusal_of_receipt};
ghost use Rattle.receipt_text.specs.declared.receipt.ReceiptFault.TheVariants as faults;

use crate::ListedCells;
use cell_types::{NoMemory, Refusal};
use document_store::Text;

/// The greatest number of cells that a receipt may have.
pub const MAX_RECEIPT_CELLS: u32 = 1_000_000;

/// A document's slot and identifier, and the cells that are to show that it is kept.
///
/// The fields may hold anything. That they are a slot, an identifier and cells of a device of so many, contracts say by
/// `IsReceiptOn`; whether the cells show the document, no word of this crate says.
#[derive(Drop)]
pub struct Receipt {
    pub slot: u32,
    pub identifier: Text,
    pub cells: ListedCells,
}

/// Why a text is not read as a receipt.
#[derive(Clone, Copy)]
pub enum ReceiptFault {
    /// The line of this number, from 1, is the first that breaks the form, or has the first address that the device
    /// does not have.
    BadReceipt(u32),
    /// No memory was to be had.
    NoMemory(NoMemory),
}

impl From<NoMemory> for ReceiptFault {
    ghost from_gives = { λ lack fault. fault ≡ faults.NoMemory lack };

    fn from(lack: NoMemory) -> ReceiptFault {
        ReceiptFault::NoMemory(lack)
    }
}

impl From<ReceiptFault> for Refusal {
    ghost from_gives = { λ fault refusal. refusal ≡ refusal_of_receipt fault };

    fn from(fault: ReceiptFault) -> Refusal {
        match fault {
            ReceiptFault::BadReceipt(line) => Refusal::BadReceipt(line),
            ReceiptFault::NoMemory(lack) => Refusal::from(lack),
        }
    }
}
