//! The later spans of a block.
ghost use Rattle.std.specs.Prelude.{◌≤◌, ◌^◌, IsTrue};
ghost use Rattle.jump_index.specs.Keeping.{IsSearchKept};
ghost use Rattle.jump_index.specs.Looking.{LooksBehind, LooksLater, MayFollow, MayTry};

use crate::bounds::Bounds;
use crate::kept_hops::{KeptHop, Tried};
use crate::kept_search::KeptSearch;
use cell_types::Fault;
use jump_block::{Entry, Front, first_from_kept, leads_nowhere, pointer};
use worm_device::View;

/// Looks behind the first written pointer of a full block whose span begins at or past the end of the one that was
/// tried and below the bound.
pub(crate) fn look_later<V: View>(
    view: &mut V,
    kept: &mut KeptSearch,
    bounds: Bounds,
    tried: Tried,
    bound: u64,
) -> Result<Option<Entry>, Fault>
    requires ready { MayTry bounds tried (V.seen view.old) }
    requires bound { bound ≤ 2 ^ 32 }
    requires kept { IsTrue (V.seen view.old).base.tells → IsSearchKept (V.seen view.old).image kept.old }
    ensures kept { IsTrue (V.seen view.old).base.tells → IsSearchKept (V.seen view.new).image kept.new }
    ensures looks { LooksLater bounds tried.block tried.greatest tried.span.high bound
        (V.seen view.old) (V.seen view.new) result }
{
    let mut span = tried.span;
    while span.high < bound {
        span = span.next();
        let read = pointer(view, tried.block, span.level, span.digit)?;
        // A written pointer is either evidence or leads to a key of its span, so the search ends here.
        if let Some(target) = read {
            let hop = KeptHop {
                block: tried.block,
                greatest: tried.greatest,
                span,
                target,
            };
            return look_behind(view, kept, bounds, hop);
        }
    }
    Ok(None)
}

/// The first entry behind a pointer with a key of its span.
fn look_behind<V: View>(
    view: &mut V,
    kept: &mut KeptSearch,
    bounds: Bounds,
    hop: KeptHop,
) -> Result<Option<Entry>, Fault>
    requires ready { MayFollow bounds hop (V.seen view.old) }
    requires kept { IsTrue (V.seen view.old).base.tells → IsSearchKept (V.seen view.old).image kept.old }
    ensures kept { IsTrue (V.seen view.old).base.tells → IsSearchKept (V.seen view.new).image kept.new }
    ensures looks { LooksBehind bounds hop.block hop.greatest hop.span hop.target
        (V.seen view.old) (V.seen view.new) result }
{
    if hop.target < bounds.pool || u64::from(hop.target) + 256 > u64::from(bounds.edge) {
        return Err(leads_nowhere(hop.block, &hop.span, hop.target));
    }
    let first = first_from_kept(
        view,
        &mut kept.fronts,
        usize::from(hop.span.level),
        hop.target,
        hop.span.low as u32,
    )?;
    if let Front::At(entry) = first {
        if u64::from(entry.key) < hop.span.high {
            // The searches that follow go this way, too.
            kept.hops.keep(hop);
            return Ok(Some(entry));
        }
    }
    Err(leads_nowhere(hop.block, &hop.span, hop.target))
}
