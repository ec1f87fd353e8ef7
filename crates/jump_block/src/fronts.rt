//! The front of a block, read from its first place or from a known one on.
ghost use Rattle.std.specs.Prelude.{◌≤◌, ◌+◌, IsTrue};
ghost use Rattle.volume_meaning.specs.declared.blocks.TheConstants.{BLOCK_CELLS, ENTRY_PLACES};
ghost use Rattle.jump_block.specs.Fronts.{FindsInFront};
ghost use Rattle.jump_block.specs.Known.{IsBelow, IsGreatest, IsKnown, ReadsOn};

use crate::row_fronts::read_rows;
use crate::{Front, KnownFront, entry};
use cell_types::{Fault, breach};
use tamper_rules::BLOCK_OUT_OF_ORDER;
use volume_meaning::ENTRY_PLACES;
use worm_device::View;

/// The first entry of a block with a key at or past x, or how its front ends that has none. It reads from place 0 on, by
/// rows, and from the place that it answers on once more, 257 reads at most. An entry before that place that is no posting
/// or does not rise is evidence.
pub fn first_at_least<V: View>(view: &mut V, block: u32, x: u32) -> Result<Front, Fault>
    requires inside { block + BLOCK_CELLS ≤ (V.seen view.old).cells }
    ensures { FindsInFront x block 257 (V.seen view.old) (V.seen view.new) result }
{
    let mut front = KnownFront {
        block,
        count: 0,
        greatest: 0,
    };
    read_rows(view, &mut front, x)?;
    read_on(view, &mut front, x)
}

/// Reads on in a block, of whose front some places are known already and hold smaller keys, up to the first key
/// at or past x.
pub(crate) fn read_on<V: View>(view: &mut V, front: &mut KnownFront, x: u32) -> Result<Front, Fault>
    requires inside { front.old.block + BLOCK_CELLS ≤ (V.seen view.old).cells }
    requires places { front.old.count ≤ ENTRY_PLACES }
    requires known { IsTrue (V.seen view.old).base.tells → IsKnown (V.seen view.old).image front.old }
    requires below { IsBelow front.old x }
    ensures { ReadsOn x (V.seen view.old) (V.seen view.new) front.old front.new result }
{
    while front.count < ENTRY_PLACES {
        let Some(next) = entry(view, front.block, front.count)? else {
            return Ok(Front::Open(front.count, greatest_of(front)));
        };
        if front.count > 0 && next.key <= front.greatest {
            let at = front.block + u32::from(front.count);
            return Err(breach(BLOCK_OUT_OF_ORDER, at, next.cell()));
        }
        if next.key >= x {
            return Ok(Front::At(next));
        }
        front.count += 1;
        front.greatest = next.key;
    }
    Ok(Front::Full(front.greatest))
}

/// The greatest known key, where there is one.
fn greatest_of(front: &KnownFront) -> Option<u32>
    ensures { IsGreatest front.now result }
{
    if front.count == 0 {
        None
    } else {
        Some(front.greatest)
    }
}
