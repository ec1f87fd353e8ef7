//! Hops from block to block of a list that is planned in part, and the list's tail.
ghost use Rattle.std.specs.Prelude.{◌<◌, ◌≤◌, ◌+◌, ◌%◌, ◌^◌};
ghost use Rattle.worm_device.specs.Overlays.{of_overlay};
ghost use Rattle.jump_insertion.specs.Hopping.{IsLateEvidence, TailLast, TailLeads};
ghost use Rattle.jump_insertion.specs.Steps.{ChecksTarget, SearchesTail};
ghost use Rattle.jump_insertion.specs.UnderWay.{IsTailStep, IsWrittenPointer};

use crate::entries::{FullBlock, ListWalk, Spot, TailSearch, TailStep, WrittenPointer};
use crate::meeting::is_met;
use crate::spans::greatest_pointer;
use cell_types::{Fault, breach};
use jump_block::{Entry, Front, first_at_least, leads_nowhere, pointer_cell};
use tamper_rules::FAKE_POSTING;
use worm_device::{Overlay, View};

/// Whether a walk may go on to the target of a written pointer. One that stands below and leads nowhere is evidence.
pub(crate) fn check_target<V: View>(
    overlay: &Overlay<'_, V>,
    walk: ListWalk,
    pointer: WrittenPointer,
) -> Result<(), Fault>
    requires { IsWrittenPointer (of_overlay V.seen overlay.now) walk pointer }
    ensures { ChecksTarget walk pointer (of_overlay V.seen overlay.now) result }
{
    let block = pointer.block;
    let span = pointer.span;
    let target = pointer.target;
    if target < walk.list.floor || u64::from(target) + 256 > u64::from(walk.next) {
        return Err(leads_nowhere(block, &span, target));
    }
    // A pointer that was planned leads to a block of the list that was checked, or granted, then.
    if let Some(_owner) = overlay.owner(pointer_cell(block, span.level, span.digit)) {
        return Ok(());
    }
    if u64::from(target) + 256 > u64::from(overlay.fresh()) {
        return Err(leads_nowhere(block, &span, target));
    }
    if is_met(overlay, walk.list.head, target) {
        return Err(leads_nowhere(block, &span, target));
    }
    Ok(())
}

/// The evidence that a posting is late: its key is not below the new one.
pub(crate) fn late_posting(late: &Entry) -> Fault
    requires inside { late.now.block + late.now.place < 2 ^ 32 }
    requires well_formed { late.now.key % 256 ≤ late.now.last }
    ensures { IsLateEvidence late.now result }
{
    breach(
        FAKE_POSTING,
        late.block + u32::from(late.place),
        late.cell(),
    )
}

/// The tail of a list, searched from a full block on, behind its pointers for keys below the bound: a blank place of the
/// last block, or `None` where that block is full.
pub(crate) fn tail<V: View>(
    overlay: &mut Overlay<'_, V>,
    search: TailSearch,
    step: TailStep,
) -> Result<Option<Spot>, Fault>
    requires { IsTailStep (of_overlay V.seen overlay.old) search step }
    ensures finds { SearchesTail search (of_overlay V.seen overlay.old) (of_overlay V.seen overlay.new) result }
    ensures leads { TailLeads search.walk.list.floor search.walk.next step.full.block
        (of_overlay V.seen overlay.old) (of_overlay V.seen overlay.new) result }
    ensures last { TailLast search.walk.list.floor search.walk.next step.full.block step.bound
        (of_overlay V.seen overlay.old) (of_overlay V.seen overlay.new) result }
{
    let found = greatest_pointer(overlay, step.full.block, step.full.greatest_key, step.bound)?;
    let Some((span, target)) = found else {
        return Ok(None);
    };
    let pointer = WrittenPointer {
        block: step.full.block,
        span,
        target,
    };
    check_target(overlay, search.walk, pointer)?;
    // No two blocks of a list meet: else a planned pointer could come to lie in a posting's place.
    let home = search.home;
    if target != home
        && u64::from(target) < u64::from(home) + 256
        && u64::from(home) < u64::from(target) + 256
    {
        return Err(leads_nowhere(step.full.block, &span, target));
    }
    let first = first_at_least(overlay, target, search.walk.key)?;
    let greatest = match first {
        Front::At(late) => return Err(late_posting(&late)),
        Front::Open(place, _) => {
            return Ok(Some(Spot {
                block: target,
                place,
            }));
        }
        Front::Full(greatest) => greatest,
    };
    if u64::from(greatest) < span.low {
        return Err(leads_nowhere(step.full.block, &span, target));
    }
    let behind = TailStep {
        full: FullBlock {
            block: target,
            greatest_key: greatest,
        },
        bound: span.high.min(1 << 32),
        level: span.level,
    };
    tail(overlay, search, behind)
}
