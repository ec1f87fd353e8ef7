//! Cells that are read, and listed if they are written.
ghost use Rattle.std.specs.Prelude.{◌≡◌, ◌<◌, ◌≤◌};
ghost use Rattle.receipt_cells.specs.Written.{IsInRow, ListsCells};

use kept_documents::AskFault;
use receipt_text::ListedCells;
use worm_device::View;

/// Lists a cell, if it is written.
pub(crate) fn list_cell<V: View>(
    view: &mut V,
    at: u32,
    listed: &mut ListedCells,
) -> Result<(), AskFault>
    requires inside { at < (V.seen view.old).cells }
    ensures { ListsCells (λ c. c ≡ at) (V.seen view.old) (V.seen view.new) listed.old listed.new result }
{
    let Ok(found) = view.read(at) else {
        return Err(AskFault::ReadFault);
    };
    let Some(value) = found else {
        return Ok(());
    };
    listed.add(at, value)?;
    Ok(())
}

/// Lists the written cells of a row.
pub(crate) fn list_cells<V: View>(
    view: &mut V,
    from: u32,
    to: u32,
    listed: &mut ListedCells,
) -> Result<(), AskFault>
    requires order { from ≤ to }
    requires inside { to ≤ (V.seen view.old).cells }
    ensures { ListsCells (IsInRow from to) (V.seen view.old) (V.seen view.new) listed.old listed.new result }
{
    for at in from..to {
        if let Err(why) = list_cell(view, at, listed) {
            return Err(why);
        }
    }
    Ok(())
}
