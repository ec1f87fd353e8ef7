//! A block of whose front some places may be kept.
ghost use Rattle.std.specs.Prelude.{◌<◌, ◌≤◌, ◌+◌, IsTrue};
ghost use Rattle.volume_meaning.specs.declared.blocks.TheConstants.{BLOCK_CELLS};
ghost use Rattle.jump_block.specs.Fronts.{FindsInFront};
ghost use Rattle.jump_block.specs.Keeping.{AreFrontsKept, CostsLess};

use crate::kept_fronts::KEPT_FRONTS;
use crate::{Front, KeptFronts, first_from_known};
use cell_types::Fault;
use worm_device::View;

/// The first entry of a block with a key at or past x, or how its front ends. What is kept of the front is not read
/// again, and what is known of it afterwards is kept at this number.
pub fn first_from_kept<V: View>(
    view: &mut V,
    fronts: &mut KeptFronts,
    at: usize,
    block: u32,
    x: u32,
) -> Result<Front, Fault>
    requires at { at < KEPT_FRONTS }
    requires inside { block + BLOCK_CELLS ≤ (V.seen view.old).cells }
    requires kept { IsTrue (V.seen view.old).base.tells → AreFrontsKept (V.seen view.old).image fronts.old }
    ensures kept { IsTrue (V.seen view.old).base.tells → AreFrontsKept (V.seen view.new).image fronts.new }
    ensures cheap { IsTrue (V.seen view.old).base.tells →
        CostsLess block fronts.old fronts.new (V.seen view.old) (V.seen view.new) }
    ensures finds { FindsInFront x block 137 (V.seen view.old) (V.seen view.new) result }
{
    let mut front = fronts.of_block(block);
    let first = first_from_known(view, &mut front, x);
    fronts.keep(at, front);
    first
}
