//! A block of whose front some places are known already.
ghost use Rattle.std.specs.Prelude.{◌<◌, ◌≤◌, ◌+◌, IsTrue};
ghost use Rattle.volume_meaning.specs.declared.blocks.TheConstants.{BLOCK_CELLS, ENTRY_PLACES};
ghost use Rattle.jump_block.specs.Known.{Bisects, FindsFromKnown, IsKnown};

use crate::fronts::read_on;
use crate::{Front, KnownFront, entry};
use cell_types::Fault;
use worm_device::View;

/// The first entry of a block with a key at or past x, or how its front ends, where some places of the front may be
/// known. Known places are not read again from the start: at most eight of them are looked at, and what is read
/// behind them is known from then on.
pub fn first_from_known<V: View>(
    view: &mut V,
    front: &mut KnownFront,
    x: u32,
) -> Result<Front, Fault>
    requires inside { front.old.block + BLOCK_CELLS ≤ (V.seen view.old).cells }
    requires places { front.old.count ≤ ENTRY_PLACES }
    requires known { IsTrue (V.seen view.old).base.tells → IsKnown (V.seen view.old).image front.old }
    ensures { FindsFromKnown x (V.seen view.old) (V.seen view.new) front.old front.new result }
{
    if front.count == 0 || front.greatest < x {
        return read_on(view, front, x);
    }
    let place = bisect(view, front, x)?;
    if let Some(next) = entry(view, front.block, place)? {
        if next.key >= x {
            return Ok(Front::At(next));
        }
    }
    // A view that tells its image never comes here: what is known has changed.
    front.count = 0;
    read_on(view, front, x)
}

/// The first of the known places that holds a key at or past x, of which there is one.
fn bisect<V: View>(view: &mut V, front: &KnownFront, x: u32) -> Result<u8, Fault>
    requires inside { front.now.block + BLOCK_CELLS ≤ (V.seen view.old).cells }
    requires some { 1 ≤ front.now.count }
    requires places { front.now.count ≤ ENTRY_PLACES }
    requires past { x ≤ front.now.greatest }
    requires known { IsTrue (V.seen view.old).base.tells → IsKnown (V.seen view.old).image front.now }
    ensures { Bisects x (V.seen view.old) (V.seen view.new) front.now result }
{
    let mut low = 0;
    let mut high = front.count - 1;
    // 128 places are one after seven halvings.
    for _halving in 0u8..7 {
        if low >= high {
            return Ok(high);
        }
        let middle = low + (high - low) / 2;
        let found = entry(view, front.block, middle)?;
        match found {
            Some(next) if next.key < x => low = middle + 1,
            _ => high = middle,
        }
    }
    Ok(high)
}
