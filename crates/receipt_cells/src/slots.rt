//! The cells of a slot whose document stands: its log cells, and those of the document.
ghost use Rattle.std.specs.Prelude.{◌<◌, ◌≤◌};
ghost use Rattle.cell_types.specs.Layout.{IsLayout};
ghost use Rattle.document_store.specs.Looks.{HasPart};
ghost use Rattle.receipt_cells.specs.Path.{AreLogCells, IsUnlisted, ListsSlot};

use crate::cells::list_cells;
use cell_types::{Fault, Geometry, Volume};
use commit_record::document_cells;
use document_store::{Part, slot_part};
use kept_documents::AskFault;
use receipt_text::ListedCells;
use worm_device::View;

/// Lists the log cells of a part's slot and the cells of its document. The document is not read as one: the caller knows
/// that it stands, and where none does, no list is owed.
pub(crate) fn list_part<V: View>(
    view: &mut V,
    geometry: &Geometry,
    part: &Part,
    listed: &mut ListedCells,
) -> Result<(), AskFault>
    requires size { geometry.now.cells ≤ (V.seen view.old).cells }
    requires part { HasPart geometry.now (V.seen view.old) part.now }
    ensures { ListsSlot geometry.now part.now.slot (V.seen view.old) (V.seen view.new) listed.old listed.new result }
{
    let log = geometry.reserve_at(part.slot);
    if let Err(why) = list_cells(view, log, log + log_cells(geometry), listed) {
        return Err(why);
    }
    list_cells(
        view,
        part.start,
        part.start + document_cells(part.bytes),
        listed,
    )
}

/// The same of a slot, whose part is looked for.
pub(crate) fn list_slot<V: View>(
    view: &mut V,
    volume: &Volume,
    slot: u32,
    listed: &mut ListedCells,
) -> Result<(), AskFault>
    requires slot { slot < volume.now.geometry.slots }
    requires size { volume.now.geometry.cells ≤ (V.seen view.old).cells }
    ensures { ListsSlot volume.now.geometry slot (V.seen view.old) (V.seen view.new) listed.old listed.new result }
{
    let found = match slot_part(view, volume, slot) {
        Ok(found) => found,
        Err(fault) => return unlisted(fault),
    };
    let Some(part) = found else {
        return Ok(());
    };
    list_part(view, &volume.geometry, &part, listed)
}

/// How many log cells a slot has that is done: its stamp cell is one where documents are stamped.
fn log_cells(geometry: &Geometry) -> u32
    ensures exists { IsLayout geometry.now }
    ensures count { AreLogCells geometry.now result }
{
    if geometry.is_stamped() {
        return 4;
    }
    3
}

/// No document stands in a slot whose cells are out of order, and nothing is owed. A read that failed ends the listing.
fn unlisted(fault: Fault) -> Result<(), AskFault>
    ensures { IsUnlisted fault result }
{
    match fault {
        Fault::Tampered(_) => Ok(()),
        Fault::Failed => Err(AskFault::ReadFault),
    }
}
