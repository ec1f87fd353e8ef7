//! Blocks, and the lists that they make.
ghost use Rattle.std.specs.Prelude.{◌≡◌, ◌≤◌, ◌+◌, ℕ};
ghost use Rattle.cell_types.specs.Image.{Image};
ghost use Rattle.volume_meaning.specs.declared.blocks.TheConstants.{BLOCK_CELLS, ENTRY_PLACES};
ghost use Rattle.jump_block.specs.Fronts.{FindsInFront};
ghost use Rattle.jump_block.specs.Keeping.{AreFrontsKept, KeepsPlaces};
ghost use Rattle.jump_block.specs.Known.{IsKnown};
ghost use Rattle.jump_index.specs.Searches.{FindsGeq};

use cell_types::Fault;
use jump_block::{Entry, Front, KeptFronts, KnownFront, first_at_least};
use jump_index::{Bounds, find_geq};
use worm_device::View;

/// `first_at_least`.
pub fn first_at_least_again<V: View>(view: &mut V, block: u32, x: u32) -> Result<Front, Fault>
    requires inside { block + BLOCK_CELLS ≤ (V.seen view.old).cells }
    ensures { FindsInFront x block 257 (V.seen view.old) (V.seen view.new) result }
{
    first_at_least(view, block, x)
}

/// `KeptFronts::of_block`.
pub fn of_block_again(fronts: &KeptFronts, block: u32) -> KnownFront
    ensures block { result.block ≡ block }
    ensures places { result.count ≤ ENTRY_PLACES }
    ensures longest { (count : ℕ) → KeepsPlaces fronts.now block count → count ≤ result.count }
    ensures known { (image : Image) → AreFrontsKept image fronts.now → IsKnown image result }
{
    fronts.of_block(block)
}

/// `find_geq`.
pub fn find_geq_again<V: View>(
    view: &mut V,
    head: u32,
    x: u32,
    bounds: Bounds,
) -> Result<Option<Entry>, Fault>
    requires head { head + BLOCK_CELLS ≤ (V.seen view.old).cells }
    requires edge { bounds.edge ≤ (V.seen view.old).cells }
    ensures { FindsGeq bounds head x (V.seen view.old) (V.seen view.new) result }
{
    find_geq(view, head, x, bounds)
}
