//! The search of a list.
ghost use Rattle.std.specs.Prelude.{◌<◌, ◌≤◌, ◌+◌, IsTrue};
ghost use Rattle.volume_meaning.specs.declared.blocks.TheConstants.{BLOCK_CELLS};
ghost use Rattle.jump_index.specs.Keeping.{IsSearchKept};
ghost use Rattle.jump_index.specs.Looking.{FirstPointer, IsEntryWithin, LooksOn, MaySearch, MayTry, SearchesFrom};
ghost use Rattle.jump_index.specs.Searches.{FindsGeq};

use crate::bounds::Bounds;
use crate::here::look_here;
use crate::kept_hops::{KeptHop, Reached, Tried};
use crate::kept_search::KeptSearch;
use crate::later::look_later;
use crate::looked::{Here, Looked};
use crate::near::find_near;
use cell_types::Fault;
use jump_block::{Entry, Span, leads_nowhere, pointer, span};
use worm_device::View;

/// The first entry of a list at or past x: no greater than any that has a trail from the list's first block, and the
/// one with the key x where that has one. `None` where there is none with a trail. At most 4,096 reads.
pub fn find_geq<V: View>(
    view: &mut V,
    head: u32,
    x: u32,
    bounds: Bounds,
) -> Result<Option<Entry>, Fault>
    requires head { head + BLOCK_CELLS ≤ (V.seen view.old).cells }
    requires edge { bounds.edge ≤ (V.seen view.old).cells }
    ensures { FindsGeq bounds head x (V.seen view.old) (V.seen view.new) result }
{
    let mut kept = KeptSearch::new();
    find_geq_from_kept(view, &mut kept, head, x, bounds)
}

/// The same with what the caller keeps from one search to the next, over one device: what is known already is not read
/// again, and where the search before has ended is looked first.
pub fn find_geq_from_kept<V: View>(
    view: &mut V,
    kept: &mut KeptSearch,
    head: u32,
    x: u32,
    bounds: Bounds,
) -> Result<Option<Entry>, Fault>
    requires head { head + BLOCK_CELLS ≤ (V.seen view.old).cells }
    requires edge { bounds.edge ≤ (V.seen view.old).cells }
    requires kept { IsTrue (V.seen view.old).base.tells → IsSearchKept (V.seen view.old).image kept.old }
    ensures kept { IsTrue (V.seen view.old).base.tells → IsSearchKept (V.seen view.new).image kept.new }
    ensures finds { FindsGeq bounds head x (V.seen view.old) (V.seen view.new) result }
{
    if let Some(near) = find_near(view, kept, head, x, bounds)? {
        return Ok(Some(near));
    }
    let first = Reached {
        block: head,
        low: 0,
        bound: 1 << 32,
        level: 8,
    };
    match search(view, kept, bounds, x, first) {
        Ok(Looked::Found(entry)) => Ok(Some(entry)),
        Ok(Looked::Nothing) => Ok(None),
        // No pointer leads to the first block, which may be empty.
        Ok(Looked::NoKey) => Ok(None),
        Err(fault) => Err(fault),
    }
}

/// The first entry with a key from x on in or behind the block that was reached, of the keys for which it was.
fn search<V: View>(
    view: &mut V,
    kept: &mut KeptSearch,
    bounds: Bounds,
    x: u32,
    reached: Reached,
) -> Result<Looked, Fault>
    requires ready { MaySearch bounds x reached (V.seen view.old) }
    requires kept { IsTrue (V.seen view.old).base.tells → IsSearchKept (V.seen view.old).image kept.old }
    ensures kept { IsTrue (V.seen view.old).base.tells → IsSearchKept (V.seen view.new).image kept.new }
    ensures looks { SearchesFrom bounds x reached (V.seen view.old) (V.seen view.new) result }
{
    let here = look_here(view, &mut kept.fronts, x, reached)?;
    let greatest = match here {
        Here::Ends(looked) => return Ok(looked),
        Here::Beyond(greatest) => greatest,
    };
    let first = span(greatest, x);
    let tried = Tried {
        block: reached.block,
        greatest,
        span: first,
    };
    let to = first_pointer(view, bounds, tried.block, first)?;
    let Some(target) = to else {
        return look_on(view, kept, bounds, tried, reached.bound);
    };
    kept.hops.keep(KeptHop {
        block: tried.block,
        greatest,
        span: first,
        target,
    });
    let behind = Reached {
        block: target,
        low: first.low,
        bound: first.high,
        level: first.level,
    };
    match search(view, kept, bounds, x, behind) {
        Ok(Looked::Found(entry)) => Ok(within(entry, reached.bound)),
        Ok(Looked::Nothing) => look_on(view, kept, bounds, tried, reached.bound),
        Ok(Looked::NoKey) => Err(leads_nowhere(tried.block, &first, target)),
        Err(fault) => Err(fault),
    }
}

/// The first entry behind the later pointers of a full block, with a key below the bound.
fn look_on<V: View>(
    view: &mut V,
    kept: &mut KeptSearch,
    bounds: Bounds,
    tried: Tried,
    bound: u64,
) -> Result<Looked, Fault>
    requires ready { MayTry bounds tried (V.seen view.old) }
    requires kept { IsTrue (V.seen view.old).base.tells → IsSearchKept (V.seen view.old).image kept.old }
    ensures kept { IsTrue (V.seen view.old).base.tells → IsSearchKept (V.seen view.new).image kept.new }
    ensures looks { LooksOn bounds tried.block tried.span.high bound (V.seen view.old) (V.seen view.new) result }
{
    match look_later(view, kept, bounds, tried, bound.min(1 << 32)) {
        Ok(Some(entry)) => Ok(within(entry, bound)),
        Ok(None) => Ok(Looked::Nothing),
        Err(fault) => Err(fault),
    }
}

/// The entry, where its key is below the bound.
fn within(entry: Entry, bound: u64) -> Looked
    ensures { IsEntryWithin entry bound result }
{
    if u64::from(entry.key) < bound {
        Looked::Found(entry)
    } else {
        Looked::Nothing
    }
}

/// Where the pointer of a span leads, within the bounds.
fn first_pointer<V: View>(
    view: &mut V,
    bounds: Bounds,
    block: u32,
    first: Span,
) -> Result<Option<u32>, Fault>
    requires inside { block + BLOCK_CELLS ≤ (V.seen view.old).cells }
    requires level { first.level < 8 }
    requires some { 1 ≤ first.digit }
    requires digit { first.digit ≤ 15 }
    ensures { FirstPointer bounds block first (V.seen view.old) (V.seen view.new) result }
{
    let to = pointer(view, block, first.level, first.digit)?;
    if let Some(target) = to {
        if target < bounds.pool || u64::from(target) + 256 > u64::from(bounds.edge) {
            return Err(leads_nowhere(block, &first, target));
        }
    }
    Ok(to)
}
