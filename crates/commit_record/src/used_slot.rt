//! The state of a slot whose reserve cell is at hand.
ghost use Rattle.std.specs.Prelude.{◌≡◌, ◌<◌, ◌≤◌, ◌+◌, IfOk, IsSome, IsTrue, Some};
ghost use Rattle.cell_types.specs.Layout.{reserve_at};
ghost use Rattle.worm_device.specs.Views.{Viewed};
ghost use Rattle.commit_record.specs.Partition.{HasRoom};
ghost use Rattle.commit_record.specs.Reservations.{reservation_of};
ghost use Rattle.commit_record.specs.States.{StateEnds, stamp_cells};

use crate::slot::SlotState;
use crate::slot_cells::{found_there, state_of_cells};
use crate::stamp_cell::look_at_stamp;
use cell_types::{Cell, Fault, Volume};
use worm_device::{View, look};

/// The state of a slot whose reserve cell was read already, and is not read again: it is used. Else the first of its
/// cells that is out of place, as `slot_state` names it. Makes at most two reads, and three where documents are stamped.
pub fn slot_state_of<V: View>(
    view: &mut V,
    volume: &Volume,
    slot: u32,
    reserve: Cell,
) -> Result<SlotState, Fault>
    requires slot { slot < volume.now.geometry.slots }
    requires size { volume.now.geometry.cells ≤ (V.seen view.old).cells }
    requires stands { IsTrue (V.seen view.old).base.tells →
        (V.seen view.old).image (reserve_at slot) ≡ Some reserve }
    ensures viewed { Viewed (V.seen view.old) (V.seen view.new) }
    ensures reads { (V.seen view.new).base.reads ≤ (V.seen view.old).base.reads
        + (2 + stamp_cells volume.now.geometry) }
    ensures room { IfOk result (λ state. HasRoom state) }
    ensures used { IfOk result (λ state. IsSome (reservation_of state)) }
    ensures ends { StateEnds volume.now.geometry slot (V.seen view.old) (V.seen view.new) result }
{
    let geometry = volume.geometry;
    let found = found_there(reserve, geometry.reserve_at(slot));
    let outcome = look(view, geometry.outcome_at(slot))?;
    let stamp = look_at_stamp(view, &geometry, slot)?;
    let done = look(view, geometry.done_at(slot))?;
    Ok(state_of_cells(&geometry, slot, found, outcome, done, stamp)?)
}
