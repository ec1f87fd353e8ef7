//! The cells that a document's being kept rests on.
ghost use Rattle.std.specs.Prelude.{◌≡◌, ◌<◌, []};
ghost use Rattle.worm_device.specs.Views.{seen_directly};
ghost use Rattle.receipt_cells.specs.Whole.{ListsKept};
ghost use Rattle.receipt_check.specs.Listing.{AreShown};
ghost use Rattle.receipt_check.specs.Judging.{JudgesReceipt};

use crate::shown::ShownCells;
use cell_types::NoMemory;
use kept_documents::{AskFault, is_kept};
use receipt_cells::list_kept;
use receipt_text::{ListedCells, Receipt};
use std::alloc::Global;
use worm_device::{Device, Direct};

/// Lists the cells that being kept rests on, of the document that is kept in this slot with this identifier, and
/// answers how many bytes its body has.
pub(crate) fn list_directly<D: Device>(
    alloc: Global,
    device: &mut D,
    slot: u32,
    id: &[u8],
    listed: &mut ListedCells,
) -> Result<Option<u32>, AskFault>
    requires { listed.old ≡ [] }
    ensures { ListsKept slot id.now (seen_directly (D.state device.old) 0) (seen_directly (D.state device.new) 0) []
        listed.new result }
{
    list_kept(alloc, &mut Direct::new(device), slot, id, listed)
}

/// Whether the receipt's cells alone keep its document, on a device of so many cells.
pub(crate) fn shows_document(alloc: Global, receipt: &Receipt, cells: u32) -> Result<bool, NoMemory>
    requires some { 0 < cells }
    requires shown { AreShown cells receipt.now.cells }
    ensures { JudgesReceipt cells receipt.now result }
{
    let mut shown = ShownCells {
        listed: &receipt.cells,
        cells,
    };
    match is_kept(alloc, &mut shown, receipt.slot, receipt.identifier.bytes()) {
        Ok(Some(_bytes)) => Ok(true),
        Ok(None) => Ok(false),
        Err(AskFault::NoMemory(lack)) => Err(lack),
        // No read of listed cells fails.
        Err(AskFault::ReadFault) => unreachable!(),
    }
}
