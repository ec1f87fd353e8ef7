//! Asking one of some lists, with the search that is kept of it among those of the others.
ghost use Rattle.std.specs.Prelude.{◌≡◌, ◌<◌, ◌≤◌, ◌+◌};
ghost use Rattle.cell_types.specs.declared.geometry.TheConstants.{MAX_SLOTS};
ghost use Rattle.posting_list.specs.Keeping.{KeepEach};
ghost use Rattle.posting_list.specs.Searches.{ConfirmsSlot, HasSlot, NextSlot};
ghost use Rattle.posting_list.specs.declared.has_slot.TheConstants.{HAS_READS};
ghost use Rattle.posting_list.specs.declared.next_slot.TheConstants.{NEXT_READS};

use crate::has_slot::{confirm_slot, has_slot};
use crate::next_slot::{Landed, next_slot};
use crate::term_lists::SEARCHES;
use crate::{Reach, SoughtTerm};
use cell_types::Fault;
use document_store::Part;
use jump_index::KeptSearch;
use worm_device::View;

/// The next slot of a term's list at or past one, which is looked at where the list vouches for it or `always` is set.
pub(crate) fn next_of_own<V: View>(
    view: &mut V,
    searches: &mut [KeptSearch; SEARCHES],
    own: usize,
    reach: &Reach,
    term: &SoughtTerm,
    from: u32,
    always: bool,
) -> Result<Option<Landed>, Fault>
    requires own { own < 8 }
    requires size { reach.now.volume.geometry.cells ≡ (V.seen view.old).cells }
    requires list { term.now.list < reach.now.volume.geometry.lists }
    requires from { from < MAX_SLOTS }
    requires kept { KeepEach (V.seen view.old) searches.old }
    ensures kept { KeepEach (V.seen view.new) searches.new }
    ensures reads { (V.seen view.new).base.reads ≤ (V.seen view.old).base.reads + NEXT_READS }
    ensures next { NextSlot reach.now term.now from always (V.seen view.old) (V.seen view.new) result }
{
    next_slot(view, &mut searches[own], reach, term, from, always)
}

/// Whether a term's list has a slot.
pub(crate) fn own_has<V: View>(
    view: &mut V,
    searches: &mut [KeptSearch; SEARCHES],
    own: usize,
    reach: &Reach,
    term: &SoughtTerm,
    slot: u32,
) -> Result<bool, Fault>
    requires own { own < 8 }
    requires size { reach.now.volume.geometry.cells ≡ (V.seen view.old).cells }
    requires list { term.now.list < reach.now.volume.geometry.lists }
    requires slot { slot < MAX_SLOTS }
    requires kept { KeepEach (V.seen view.old) searches.old }
    ensures kept { KeepEach (V.seen view.new) searches.new }
    ensures reads { (V.seen view.new).base.reads ≤ (V.seen view.old).base.reads + HAS_READS }
    ensures has { HasSlot reach.now term.now slot (V.seen view.old) (V.seen view.new) result }
{
    has_slot(view, &mut searches[own], reach, term, slot)
}

/// Where the document of a slot lies, if a term's list has the slot.
pub(crate) fn own_confirm<V: View>(
    view: &mut V,
    searches: &mut [KeptSearch; SEARCHES],
    own: usize,
    reach: &Reach,
    term: &SoughtTerm,
    slot: u32,
) -> Result<Option<Part>, Fault>
    requires own { own < 8 }
    requires size { reach.now.volume.geometry.cells ≡ (V.seen view.old).cells }
    requires list { term.now.list < reach.now.volume.geometry.lists }
    requires slot { slot < MAX_SLOTS }
    requires kept { KeepEach (V.seen view.old) searches.old }
    ensures kept { KeepEach (V.seen view.new) searches.new }
    ensures reads { (V.seen view.new).base.reads ≤ (V.seen view.old).base.reads + HAS_READS }
    ensures confirms { ConfirmsSlot reach.now term.now slot (V.seen view.old) (V.seen view.new) result }
{
    confirm_slot(view, &mut searches[own], reach, term, slot)
}
