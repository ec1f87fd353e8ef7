//! The last slot of the log: its state, and that it follows the one before.
ghost use Rattle.std.specs.Prelude.{◌≡◌, ◌<◌, ◌≤◌, ◌+◌, ◌^◌, ◌↔◌, IfOk, IfSome, IsOk, IsSome, IsTrue, Some};
ghost use Rattle.cell_types.specs.Layout.{reserve_at};
ghost use Rattle.worm_device.specs.Views.{Viewed};
ghost use Rattle.commit_record.specs.Reservations.{reservation_of};
ghost use Rattle.recovery_engine.specs.LastSlot.{IsFollowed, IsReserveCell, LastEnds};

use cell_types::{Cell, Evidence, Fault, Geometry, RecordCell, Volume, encode};
use commit_record::{Reservation, SlotState, slot_state, slot_state_of};
use tamper_rules::RESERVE_CELL;
use worm_device::View;

/// The state of a slot that follows those below it: its cells begin where theirs end, and the slot before is abandoned
/// or done. Else what is out of place. Its reserve cell was read already. Makes at most seven reads.
pub fn last_slot<V: View>(
    view: &mut V,
    volume: &Volume,
    last: u32,
    reserve: Cell,
) -> Result<SlotState, Fault>
    requires slot { last < volume.now.geometry.slots }
    requires size { volume.now.geometry.cells ≤ (V.seen view.old).cells }
    requires stands { IsTrue (V.seen view.old).base.tells →
        (V.seen view.old).image (reserve_at last) ≡ Some reserve }
    ensures viewed { Viewed (V.seen view.old) (V.seen view.new) }
    ensures reads { (V.seen view.new).base.reads ≤ (V.seen view.old).base.reads + 7 }
    ensures unfailed { IsOk result → (V.seen view.new).base.faults ≡ (V.seen view.old).base.faults }
    ensures used { IfOk result (λ state. IsSome (reservation_of state)) }
    ensures ends { LastEnds volume.now.geometry last (V.seen view.old) (V.seen view.new) result }
{
    let geometry = volume.geometry;
    let state = slot_state_of(view, volume, last, reserve)?;
    let Some(cells) = state.reservation() else {
        unreachable!()
    };
    if last == 0 {
        if cells.start != geometry.pool_at() {
            return Err(Fault::Tampered(out_of_order(&geometry, last, cells)));
        }
        return Ok(state);
    }
    let before = slot_state(view, volume, last - 1)?;
    if !is_followed(&before, cells.start) {
        return Err(Fault::Tampered(out_of_order(&geometry, last, cells)));
    }
    Ok(state)
}

/// Whether cells from this one on follow those of a slot in this state.
fn is_followed(before: &SlotState, start: u32) -> bool
    requires { IfSome (reservation_of before.now) (λ cells. cells.start + cells.length < 2 ^ 32) }
    ensures { IsTrue result ↔ IsFollowed before.now start }
{
    if !before.has_ended() {
        return false;
    }
    match before.reservation() {
        Some(cells) => cells.end() == start,
        None => false,
    }
}

/// Evidence that a slot's cells do not follow those before.
fn out_of_order(geometry: &Geometry, slot: u32, cells: Reservation) -> Evidence
    requires slot { slot < geometry.now.slots }
    requires length { 1 ≤ cells.length }
    ensures { IsReserveCell slot cells result }
{
    let cell = geometry.reserve_at(slot);
    let found = encode(
        RecordCell::Reserve {
            start: cells.start,
            length: cells.length,
        },
        cell,
    );
    Evidence {
        rule: RESERVE_CELL,
        cell,
        found,
    }
}
