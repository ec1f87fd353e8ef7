//! A caller, as a query writes it: it joins the lists of its terms over a device, and goes on with the device.
ghost use Rattle.std.specs.Prelude.{◌≤◌, length};
ghost use Rattle.cell_types.specs.declared.geometry.TheConstants.{MAX_SLOTS};
ghost use Rattle.worm_device.specs.Calls.{Called};
ghost use Rattle.worm_device.specs.Views.{Viewed};
ghost use Rattle.posting_list.specs.Joins.{TermsGather, TermsJoin};

use cell_types::{Fault, Refusal, Volume};
use document_store::Part;
use jump_index::Bounds;
use posting_list::{SoughtTerms, TermLists};
use std::alloc::Global;
use worm_device::{Device, Direct, View};

/// The first slot at or past one that all terms have.
fn first_common<V: View>(
    view: &mut V,
    sought: &SoughtTerms,
    volume: Volume,
    horizon: u32,
    bounds: Bounds,
    from: u32,
) -> Result<Option<u32>, Fault>
    requires some { 1 ≤ length sought.now.terms.items }
    requires from { from ≤ MAX_SLOTS }
    ensures viewed { Viewed (V.seen view.old) (V.seen view.new) }
    ensures joins { TermsJoin (record { volume = volume; horizon = horizon; bounds = bounds })
        sought.now.terms.items from (V.seen view.old) (V.seen view.new) result }
{
    let mut lists = TermLists::new(view, sought, volume, horizon, bounds);
    lists.next_common(from)
}

/// All slots that all terms have, each by where its document lies.
fn each_common<V: View>(
    alloc: Global,
    view: &mut V,
    sought: &SoughtTerms,
    volume: Volume,
    horizon: u32,
    bounds: Bounds,
) -> Result<Vec<Part>, Refusal>
    requires some { 1 ≤ length sought.now.terms.items }
    ensures viewed { Viewed (V.seen view.old) (V.seen view.new) }
    ensures gathers { TermsGather (record { volume = volume; horizon = horizon; bounds = bounds })
        sought.now.terms.items (V.seen view.old) (V.seen view.new) result }
{
    let mut lists = TermLists::new(view, sought, volume, horizon, bounds);
    lists.all_common(alloc)
}

/// The same over a device.
fn first_stored<D: Device>(
    device: &mut D,
    sought: &SoughtTerms,
    volume: Volume,
    horizon: u32,
    bounds: Bounds,
    from: u32,
) -> Result<Option<u32>, Fault>
    requires some { 1 ≤ length sought.now.terms.items }
    requires from { from ≤ MAX_SLOTS }
    ensures called { Called (D.state device.old) (D.state device.new) }
{
    first_common(
        &mut Direct::new(device),
        sought,
        volume,
        horizon,
        bounds,
        from,
    )
}
