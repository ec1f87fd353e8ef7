//! The cells of the trails of a slot's document, by its body.
ghost use Rattle.std.specs.Prelude.{◌<◌, ◌≤◌};
ghost use Rattle.receipt_cells.specs.Bodies.{ListsStamped};

use crate::postings::list_postings;
use cell_types::Volume;
use kept_documents::{AskFault, slot_stamp};
use receipt_text::ListedCells;
use std::alloc::Global;
use worm_device::View;

/// Lists the cells of the trails of the postings of a slot's document that has this body.
pub(crate) fn list_body<V: View>(
    alloc: Global,
    view: &mut V,
    volume: &Volume,
    slot: u32,
    body: &[u8],
    listed: &mut ListedCells,
) -> Result<(), AskFault>
    requires slot { slot < volume.now.geometry.slots }
    requires size { volume.now.geometry.cells ≤ (V.seen view.old).cells }
    ensures { ListsStamped volume.now.geometry slot body.now (V.seen view.old) (V.seen view.new) listed.old listed.new
        result }
{
    let Ok(found) = slot_stamp(view, volume, slot) else {
        return Err(AskFault::ReadFault);
    };
    let Some(stamp) = found else {
        // Then the document has no stamp, and is not kept.
        return Ok(());
    };
    list_postings(alloc, view, volume, slot, body, stamp.seconds, listed)
}
