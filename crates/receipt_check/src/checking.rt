//! The check of a receipt.
ghost use Rattle.std.specs.Prelude.{◌≡◌};
ghost use Rattle.receipt_text.specs.Listed.{AreListed};
ghost use Rattle.receipt_check.specs.Checks.{ChecksReceipt, ComparesListed, refusal_of_check};

use crate::shown::ShownCells;
use cell_types::{NoMemory, Refusal};
use kept_documents::{AskFault, is_kept};
use receipt_text::{ListedCells, Receipt};
use std::alloc::Global;
use worm_device::Device;

/// A document that a receipt showed.
#[derive(Clone, Copy, Debug, PartialEq, Eq)]
pub struct Checked {
    pub slot: u32,
    /// How many bytes its body has.
    pub bytes: u32,
}

/// Why a receipt shows no document.
#[derive(Clone, Copy, Debug, PartialEq, Eq)]
pub enum CheckRefusal {
    /// The least listed cell that is blank on the device, or has another value there.
    CellDiffers(u32),
    /// The listed cells keep no document in this slot with the identifier.
    NotShown(u32),
    /// A read failed.
    DeviceFault,
    /// No memory was to be had.
    NoMemory(NoMemory),
}

impl From<CheckRefusal> for Refusal {
    ghost from_gives = { λ fault refusal. refusal ≡ refusal_of_check fault };

    fn from(fault: CheckRefusal) -> Refusal {
        match fault {
            CheckRefusal::CellDiffers(cell) => Refusal::CellDiffers(cell),
            CheckRefusal::NotShown(slot) => Refusal::NotShown(slot),
            CheckRefusal::DeviceFault => Refusal::DeviceFault,
            CheckRefusal::NoMemory(lack) => Refusal::from(lack),
        }
    }
}

/// Checks a receipt: its cells stand on the device, and keep its document. Writes nothing.
pub fn check_receipt<D: Device>(
    alloc: Global,
    device: &mut D,
    receipt: &Receipt,
) -> Result<Checked, CheckRefusal>
    requires listed { AreListed (D.state device.old).cells receipt.now.cells }
    ensures { ChecksReceipt receipt.now (D.state device.old) (D.state device.new) result }
{
    let cells = device.cells();
    if let Err(refusal) = compare(device, &receipt.cells) {
        return Err(refusal);
    }
    let mut shown = ShownCells {
        listed: &receipt.cells,
        cells,
    };
    match is_kept(alloc, &mut shown, receipt.slot, receipt.identifier.bytes()) {
        Ok(Some(bytes)) => Ok(Checked {
            slot: receipt.slot,
            bytes,
        }),
        Ok(None) => Err(CheckRefusal::NotShown(receipt.slot)),
        Err(AskFault::NoMemory(lack)) => Err(CheckRefusal::NoMemory(lack)),
        // No read of listed cells fails.
        Err(AskFault::ReadFault) => unreachable!(),
    }
}

/// Whether each listed cell stands on the device. Each is read, by rising address, up to the first that does not.
fn compare<D: Device>(device: &mut D, listed: &ListedCells) -> Result<(), CheckRefusal>
    requires listed { AreListed (D.state device.old).cells listed.now }
    ensures { ComparesListed listed.now (D.state device.old) (D.state device.new) result }
{
    let cells = device.cells();
    let mut next = 0;
    while next < cells {
        let Some(cell) = listed.first_from(next) else {
            return Ok(());
        };
        let Ok(found) = device.read(cell.at) else {
            return Err(CheckRefusal::DeviceFault);
        };
        if found != Some(cell.value) {
            return Err(CheckRefusal::CellDiffers(cell.at));
        }
        next = cell.at + 1;
    }
    Ok(())
}
