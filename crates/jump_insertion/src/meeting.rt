//! Whether a cell that is planned for another is met in a block.
ghost use Rattle.std.specs.Prelude.{◌≡◌, ◌<◌, ◌≤◌, ◌+◌, ◌^◌, IfNone, IfSome, IsTrue, IsFalse};
ghost use Rattle.volume_meaning.specs.declared.blocks.TheConstants.{BLOCK_CELLS};
ghost use Rattle.worm_device.specs.Overlays.{of_overlay};
ghost use Rattle.jump_insertion.specs.Evidence.{IsBlockMet};
ghost use Rattle.jump_insertion.specs.Meeting.{AreUnowned, LieInBlocks, Meets};
ghost use Rattle.jump_insertion.specs.Readiness.{IsOwnBlock};

use volume_meaning::BLOCK_CELLS;
use worm_device::{Overlay, Owner, View};

/// Whether a planned cell of another owner lies in this block of the list, or in a block of the list that meets it.
pub(crate) fn is_met<V: View>(overlay: &Overlay<'_, V>, head: u32, block: u32) -> bool
    requires inside { block + BLOCK_CELLS < 2 ^ 32 }
    requires lies { IsTrue (of_overlay V.seen overlay.now).base.tells →
        LieInBlocks (of_overlay V.seen overlay.now) head }
    ensures met { IsTrue result → IsBlockMet (of_overlay V.seen overlay.now) head block }
    ensures own { IsFalse result → IsTrue (of_overlay V.seen overlay.now).base.tells →
        IsOwnBlock (of_overlay V.seen overlay.now) head block }
{
    // A block that meets this one begins less than 256 cells before it, and ends less than 512 behind its start.
    let mut from = block.saturating_sub(BLOCK_CELLS);
    let end = block.saturating_add(512);
    while let Some(at) = first_planned(overlay, from, end) {
        if let Some(owner) = overlay.owner(at) {
            if meets(owner, at, head, block) {
                return true;
            }
        }
        from = at + 1;
    }
    false
}

/// The first planned cell of those from one up to another, `None` where none of them is planned.
fn first_planned<V: View>(overlay: &Overlay<'_, V>, from: u32, end: u32) -> Option<u32>
    requires forward { from ≤ end }
    ensures some { IfSome result (λ at. (from ≤ at) × (at < end)
        × AreUnowned (of_overlay V.seen overlay.now) from at) }
    ensures none { IfNone result (AreUnowned (of_overlay V.seen overlay.now) from end) }
{
    let (at, _) = overlay.planned().range(from..end).next()?;
    Some(*at)
}

/// Whether a cell is planned for another, and it or its block meets this block of the list.
fn meets(owner: Owner, at: u32, head: u32, block: u32) -> bool
    ensures yes { IsTrue result → Meets owner at head block }
    ensures no { IsFalse result → Meets owner at head block → ⊥ }
{
    if owner.head == head && owner.base == block {
        return false;
    }
    let first = u64::from(block);
    let cell = u64::from(at);
    let base = u64::from(owner.base);
    if first <= cell && cell < first + 256 {
        return true;
    }
    owner.head == head && base < first + 256 && first < base + 256
}
