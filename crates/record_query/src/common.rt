//! The slots that all of the sought terms have, each by where its document lies, by the index of a settled volume.
ghost use Rattle.std.specs.Prelude.{◌≡◌, ◌≤◌, length};
ghost use Rattle.worm_device.specs.Views.{Viewed, seen_directly};
ghost use Rattle.posting_list.specs.Joins.{TermsGather, TermsGatherReads};
ghost use Rattle.record_query.specs.Reaching.{reach_of};

use cell_types::{Refusal, Volume};
use document_store::Part;
use jump_index::Bounds;
use posting_list::{SoughtTerms, TermLists};
use read_cache::{Cached, CellCache};
use recovery_engine::Ready;
use std::alloc::Global;
use worm_device::{Device, Direct, View};

/// How many cells of lists and slots a find keeps at most.
const KEPT_CELLS: u32 = 4_096;

/// All slots that all terms have, each by where its document lies, by rising slot. Cells that are read one at a time are
/// kept, so that most of them are read on the device once.
pub(crate) fn common_parts<D: Device>(
    alloc: Global,
    device: &mut D,
    ready: &Ready,
    sought: &SoughtTerms,
) -> Result<Vec<Part>, Refusal>
    requires some { 1 ≤ length sought.now.terms.items }
    ensures viewed { Viewed (seen_directly (D.state device.old) 0) (seen_directly (D.state device.new) 0) }
    ensures gathers { TermsGather (reach_of ready.now) sought.now.terms.items (seen_directly (D.state device.old) 0)
        (seen_directly (D.state device.new) 0) result }
    ensures reads { TermsGatherReads (reach_of ready.now) sought.now.terms.items
        (seen_directly (D.state device.old) 0) (seen_directly (D.state device.new) 0) }
{
    let bounds = Bounds {
        pool: ready.volume.geometry.pool_at(),
        edge: ready.edge,
    };
    let mut cache = CellCache::new(alloc, KEPT_CELLS)?;
    common_kept(
        alloc,
        &mut Direct::new(device),
        &mut cache,
        ready.volume,
        ready.horizon,
        bounds,
        sought,
    )
}

/// The same over any view, by way of kept cells.
fn common_kept<V: View>(
    alloc: Global,
    view: &mut V,
    cache: &mut CellCache,
    volume: Volume,
    horizon: u32,
    bounds: Bounds,
    sought: &SoughtTerms,
) -> Result<Vec<Part>, Refusal>
    requires some { 1 ≤ length sought.now.terms.items }
    ensures viewed { Viewed (V.seen view.old) (V.seen view.new) }
    ensures gathers { TermsGather (record { volume = volume; horizon = horizon; bounds = bounds })
        sought.now.terms.items (V.seen view.old) (V.seen view.new) result }
    ensures reads { TermsGatherReads (record { volume = volume; horizon = horizon; bounds = bounds })
        sought.now.terms.items (V.seen view.old) (V.seen view.new) }
{
    common_in(
        alloc,
        &mut Cached::new(view, cache),
        volume,
        horizon,
        bounds,
        sought,
    )
}

/// The same over any view.
fn common_in<V: View>(
    alloc: Global,
    view: &mut V,
    volume: Volume,
    horizon: u32,
    bounds: Bounds,
    sought: &SoughtTerms,
) -> Result<Vec<Part>, Refusal>
    requires some { 1 ≤ length sought.now.terms.items }
    ensures viewed { Viewed (V.seen view.old) (V.seen view.new) }
    ensures gathers { TermsGather (record { volume = volume; horizon = horizon; bounds = bounds })
        sought.now.terms.items (V.seen view.old) (V.seen view.new) result }
    ensures reads { TermsGatherReads (record { volume = volume; horizon = horizon; bounds = bounds })
        sought.now.terms.items (V.seen view.old) (V.seen view.new) }
{
    let mut lists = TermLists::new(view, sought, volume, horizon, bounds);
    lists.all_common(alloc)
}
