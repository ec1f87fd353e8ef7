//! Joins of lists.
ghost use Rattle.std.specs.Prelude.{◌≡◌, ◌≤◌, ◌+◌, length};
ghost use Rattle.cell_types.specs.declared.geometry.TheConstants.{MAX_SLOTS};
ghost use Rattle.posting_list.specs.Joins.{TermsCost, TermsGather, TermsGatherCost, TermsGatherReads, TermsJoin};
ghost use Rattle.posting_list.specs.Searches.{LooksLive};
ghost use Rattle.worm_device.specs.Views.{Viewed};
ghost use Rattle.zigzag_join.specs.Counts.{JoinCosts};
ghost use Rattle.zigzag_join.specs.Joins.{JoinEnds};
ghost use Rattle.zigzag_join.specs.Lists.{Keeps, KnowsNext};

use cell_types::{Fault, Refusal};
use document_store::Part;
use posting_list::{Reach, TermLists, live_part};
use std::alloc::Global;
use worm_device::View;
use zigzag_join::{Lists, next_common};

/// `next_common`.
pub fn next_common_again<Q: Lists>(lists: &mut Q, from: u32) -> Result<Option<u32>, Fault>
    requires some { 1 ≤ (Q.state lists.old).lists }
    requires from { from ≤ MAX_SLOTS }
    ensures kept { Keeps (Q.state lists.old) (Q.state lists.new) }
    ensures ends { JoinEnds from (Q.state lists.old) (Q.state lists.new) result }
    ensures costs { JoinCosts from (Q.state lists.old) (Q.state lists.new) result }
    ensures knows { KnowsNext (Q.knows lists.new) result }
{
    next_common(lists, from)
}

/// `TermLists::next_common`.
pub fn next_of_terms_again<'a, V: View>(
    lists: &mut TermLists<'a, V>,
    from: u32,
) -> Result<Option<u32>, Fault>
    requires some { 1 ≤ length lists.old.sought.now.terms.items }
    requires from { from ≤ MAX_SLOTS }
    ensures same_loan { lists.new.view.ghost_name ≡ lists.old.view.ghost_name }
    ensures same_reach { lists.new.reach ≡ lists.old.reach }
    ensures same_terms { lists.new.sought.now.terms.items ≡ lists.old.sought.now.terms.items }
    ensures viewed { Viewed (V.seen lists.old.view.now) (V.seen lists.new.view.now) }
    ensures joins { TermsJoin lists.old.reach lists.old.sought.now.terms.items from (V.seen lists.old.view.now)
        (V.seen lists.new.view.now) result }
    ensures costs { TermsCost lists.old.reach lists.old.sought.now.terms.items from (V.seen lists.old.view.now)
        (V.seen lists.new.view.now) lists.old.next_asks lists.old.has_asks lists.new.next_asks lists.new.has_asks
        result }
{
    lists.next_common(from)
}

/// `TermLists::all_common`.
pub fn all_of_terms_again<'a, V: View>(
    lists: &mut TermLists<'a, V>,
    alloc: Global,
) -> Result<Vec<Part>, Refusal>
    requires some { 1 ≤ length lists.old.sought.now.terms.items }
    ensures same_loan { lists.new.view.ghost_name ≡ lists.old.view.ghost_name }
    ensures viewed { Viewed (V.seen lists.old.view.now) (V.seen lists.new.view.now) }
    ensures gathers { TermsGather lists.old.reach lists.old.sought.now.terms.items (V.seen lists.old.view.now)
        (V.seen lists.new.view.now) result }
    ensures costs { TermsGatherCost lists.old.reach lists.old.sought.now.terms.items (V.seen lists.old.view.now)
        (V.seen lists.new.view.now) lists.old.next_asks lists.old.has_asks lists.new.next_asks lists.new.has_asks }
    ensures reads { lists.old.next_asks ≡ 0 → lists.old.has_asks ≡ 0 → TermsGatherReads lists.old.reach
        lists.old.sought.now.terms.items (V.seen lists.old.view.now) (V.seen lists.new.view.now) }
{
    lists.all_common(alloc)
}

/// `live_part`.
pub fn live_part_again<V: View>(
    view: &mut V,
    reach: &Reach,
    slot: u32,
) -> Result<Option<Part>, Fault>
    requires size { reach.now.volume.geometry.cells ≡ (V.seen view.old).cells }
    ensures reads { (V.seen view.new).base.reads ≤ (V.seen view.old).base.reads + 4 }
    ensures live { LooksLive reach.now slot (V.seen view.old) (V.seen view.new) result }
{
    live_part(view, reach, slot)
}
