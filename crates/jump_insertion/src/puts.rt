//! A posting that is planned, and a pointer to its block.
ghost use Rattle.std.specs.Prelude.{◌<◌, ◌≤◌, ◌%◌, IfOk, IsSome};
ghost use Rattle.cell_types.specs.Records.{IsWellFormed};
ghost use Rattle.volume_meaning.specs.Blocks.{posting_record};
ghost use Rattle.worm_device.specs.Overlays.{of_overlay};
ghost use Rattle.jump_insertion.specs.Planning.{PutsRecord};
ghost use Rattle.jump_insertion.specs.Steps.{PutsWithPointer};
ghost use Rattle.jump_insertion.specs.UnderWay.{LieInOverlay};

use crate::entries::{Home, Insertion, Spot};
use cell_pool::{GrowthFault, PlanFault, plan_record};
use cell_types::{RecordCell, breach};
use jump_block::pointer_cell;
use tamper_rules::BLOCK_OUT_OF_ORDER;
use volume_meaning::PostingFields;
use worm_device::{OVERLAY_CELLS, Overlay, Owner, View};

/// Plans a record in a cell that read blank. Where the cell is planned already, that cell is evidence.
fn put<V: View>(
    overlay: &mut Overlay<'_, V>,
    at: u32,
    value: RecordCell,
    owner: Owner,
) -> Result<(), GrowthFault>
    requires inside { at < OVERLAY_CELLS }
    requires well_formed { IsWellFormed value at }
    ensures { PutsRecord at value owner (of_overlay V.seen overlay.old) (of_overlay V.seen overlay.new) result }
{
    match plan_record(overlay, at, value, owner) {
        Ok(()) => Ok(()),
        Err(PlanFault::NoMemory(lack)) => Err(GrowthFault::NoMemory(lack)),
        // A planned cell reads as planned: no view that tells its image comes here.
        Err(PlanFault::Taken) => {
            let Some(found) = overlay.planned().get(&at).copied() else {
                unreachable!()
            };
            Err(GrowthFault::Fault(breach(BLOCK_OUT_OF_ORDER, at, found)))
        }
    }
}

/// Plans a posting in a cell of a block.
pub(crate) fn put_posting<V: View>(
    overlay: &mut Overlay<'_, V>,
    at: u32,
    owner: Owner,
    entry: PostingFields,
) -> Result<(), GrowthFault>
    requires inside { at < OVERLAY_CELLS }
    requires well_formed { entry.key % 256 ≤ entry.last }
    ensures { PutsRecord at (posting_record entry) owner
        (of_overlay V.seen overlay.old) (of_overlay V.seen overlay.new) result }
{
    put(overlay, at, entry.to_record(), owner)
}

/// Plans a posting at a place of a block, and a pointer to that block in its home.
pub(crate) fn put_both<V: View>(
    overlay: &mut Overlay<'_, V>,
    insertion: Insertion,
    home: Home,
    spot: Spot,
) -> Result<Option<Spot>, GrowthFault>
    requires { LieInOverlay insertion home spot }
    ensures some { IfOk result (λ spot. IsSome spot) }
    ensures puts { PutsWithPointer insertion home spot (of_overlay V.seen overlay.old) (of_overlay V.seen overlay.new)
        result }
{
    let head = insertion.list.head;
    let at = spot.block + u32::from(spot.place);
    let owner = Owner {
        head,
        base: spot.block,
    };
    put_posting(overlay, at, owner, insertion.entry)?;
    let jump = RecordCell::Jump { target: spot.block };
    let block = home.visit.block;
    let pointer = pointer_cell(block, home.to.level, home.to.digit);
    put(overlay, pointer, jump, Owner { head, base: block })?;
    Ok(Some(spot))
}
