//! A look where the search before has ended.
ghost use Rattle.std.specs.Prelude.{◌≤◌, ◌+◌, IsTrue};
ghost use Rattle.volume_meaning.specs.declared.blocks.TheConstants.{BLOCK_CELLS};
ghost use Rattle.jump_index.specs.Keeping.{FindsNear, IsSearchKept};

use crate::bounds::Bounds;
use crate::kept_search::KeptSearch;
use jump_block::{Entry, next_in_rows};
use worm_device::{Failed, View};

/// The first entry of a list at or past x, if the block that kept hops lead to shows it. `None` says nothing.
pub(crate) fn find_near<V: View>(
    view: &mut V,
    kept: &mut KeptSearch,
    head: u32,
    x: u32,
    bounds: Bounds,
) -> Result<Option<Entry>, Failed>
    requires head { head + BLOCK_CELLS ≤ (V.seen view.old).cells }
    requires edge { bounds.edge ≤ (V.seen view.old).cells }
    requires kept { IsTrue (V.seen view.old).base.tells → IsSearchKept (V.seen view.old).image kept.old }
    ensures kept { IsTrue (V.seen view.old).base.tells → IsSearchKept (V.seen view.new).image kept.new }
    ensures finds { FindsNear bounds head x (V.seen view.old) (V.seen view.new) result }
{
    let reached = kept.hops.reached(head, x, bounds);
    let level = usize::from(reached.level);
    let mut front = kept.fronts.at(level, reached.block);
    // Of a block of which nothing is known, a search reads no more than it has to.
    if front.count == 0 && reached.level == 8 {
        return Ok(None);
    }
    if front.count > 0 && front.greatest >= x {
        return Ok(None);
    }
    let found = next_in_rows(view, &mut front, &mut kept.row, x);
    kept.fronts.keep(level, front);
    match found? {
        Some(next) if u64::from(next.key) < reached.bound => Ok(Some(next)),
        _ => Ok(None),
    }
}
