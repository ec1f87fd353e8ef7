//! A look into one block.
ghost use Rattle.std.specs.Prelude.{◌<◌, ◌≤◌, ◌+◌, IsTrue};
ghost use Rattle.volume_meaning.specs.declared.blocks.TheConstants.{BLOCK_CELLS, ENTRY_PLACES};
ghost use Rattle.jump_block.specs.Keeping.{AreFrontsKept};
ghost use Rattle.jump_index.specs.Looking.{EndsBefore, LooksBefore, LooksAtBlock};

use crate::kept_hops::Reached;
use crate::looked::{Here, Looked};
use cell_types::Fault;
use jump_block::{Front, KeptFronts, entry, first_from_kept};
use worm_device::View;

/// Looks for the first key from x on in the block that was reached, of the keys for which it was.
pub(crate) fn look_here<V: View>(
    view: &mut V,
    fronts: &mut KeptFronts,
    x: u32,
    reached: Reached,
) -> Result<Here, Fault>
    requires inside { reached.block + BLOCK_CELLS ≤ (V.seen view.old).cells }
    requires kept { IsTrue (V.seen view.old).base.tells → AreFrontsKept (V.seen view.old).image fronts.old }
    requires from { reached.low ≤ x }
    requires below { x < reached.bound }
    requires level { reached.level ≤ 8 }
    ensures kept { IsTrue (V.seen view.old).base.tells → AreFrontsKept (V.seen view.new).image fronts.new }
    ensures looks { LooksAtBlock reached.block x reached.low reached.bound (V.seen view.old) (V.seen view.new) result }
{
    let first = first_from_kept(view, fronts, usize::from(reached.level), reached.block, x)?;
    match first {
        Front::At(next) if u64::from(next.key) < reached.bound => {
            Ok(Here::Ends(Looked::Found(next)))
        }
        Front::At(next) => look_before(view, reached.block, next.place, reached.low),
        Front::Open(_, greatest) => Ok(end_before(greatest, reached.low)),
        Front::Full(greatest) if u64::from(greatest) < reached.low => {
            Ok(Here::Ends(Looked::NoKey))
        }
        Front::Full(greatest) => Ok(Here::Beyond(greatest)),
    }
}

/// What a block says whose key at this place is past the bound: whether the key before it, the greatest below the
/// bound, is at or past low.
fn look_before<V: View>(view: &mut V, block: u32, place: u8, low: u64) -> Result<Here, Fault>
    requires inside { block + BLOCK_CELLS ≤ (V.seen view.old).cells }
    requires place { place < ENTRY_PLACES }
    ensures { LooksBefore block place low (V.seen view.old) (V.seen view.new) result }
{
    if place == 0 {
        return Ok(Here::Ends(Looked::NoKey));
    }
    let found = entry(view, block, place - 1)?;
    match found {
        Some(before) if u64::from(before.key) >= low => Ok(Here::Ends(Looked::Nothing)),
        _ => Ok(Here::Ends(Looked::NoKey)),
    }
}

/// What a block says whose keys end with this one, below the asked one: whether it is at or past low.
fn end_before(greatest: Option<u32>, low: u64) -> Here
    ensures { EndsBefore greatest low result }
{
    match greatest {
        Some(key) if u64::from(key) >= low => Here::Ends(Looked::Nothing),
        _ => Here::Ends(Looked::NoKey),
    }
}
