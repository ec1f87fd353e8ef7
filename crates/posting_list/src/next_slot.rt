//! The next slot of a term's list.
ghost use Rattle.std.specs.Prelude.{◌≡◌, ◌<◌, ◌+◌, ◌≤◌};
ghost use Rattle.cell_types.specs.declared.geometry.TheConstants.{MAX_SLOTS};
ghost use Rattle.posting_list.specs.Keeping.{KeepsSearch};
ghost use Rattle.posting_list.specs.Searches.{NextSlot};
ghost use Rattle.posting_list.specs.declared.next_slot.TheConstants.{NEXT_READS};

use crate::has_slot::is_same;
use crate::live::part_of_posting;
use crate::search::find_in_list;
use crate::{Reach, SoughtTerm};
use cell_types::Fault;
use document_store::Part;
use jump_index::KeptSearch;
use worm_device::View;

/// A slot that a list has come to.
#[derive(Clone, Copy)]
pub(crate) struct Landed {
    pub slot: u32,
    /// Whether the list vouches for the slot.
    pub vouched: bool,
    /// Where its document lies, where the slot was looked at.
    pub part: Option<Part>,
}

/// How many reads one ask for a next slot may cost: those of a search, 4,096, and four of the slot that it comes to.
pub const NEXT_READS: u64 = 4_100;

/// The next slot of a term's list at or past one: that of the first posting at or past the slot's first key, whichever
/// tag it has. The list vouches for it where that is the term's. Where it does not, the slot is looked at only if
/// `always` says so: most such postings are of other words, of which the list may have thousands.
pub(crate) fn next_slot<V: View>(
    view: &mut V,
    kept: &mut KeptSearch,
    reach: &Reach,
    term: &SoughtTerm,
    from: u32,
    always: bool,
) -> Result<Option<Landed>, Fault>
    requires size { reach.now.volume.geometry.cells ≡ (V.seen view.old).cells }
    requires list { term.now.list < reach.now.volume.geometry.lists }
    requires from { from < MAX_SLOTS }
    requires kept { KeepsSearch (V.seen view.old) kept.old }
    ensures kept { KeepsSearch (V.seen view.new) kept.new }
    ensures reads { (V.seen view.new).base.reads ≤ (V.seen view.old).base.reads + NEXT_READS }
    ensures next { NextSlot reach.now term.now from always (V.seen view.old) (V.seen view.new) result }
{
    let found = find_in_list(view, kept, reach, term.list, 256 * from)?;
    let Some(entry) = found else {
        return Ok(None);
    };
    let slot = entry.key / 256;
    let vouched = is_same(&entry.tag, &term.tag);
    if !vouched && !always {
        return Ok(Some(Landed {
            slot,
            vouched,
            part: None,
        }));
    }
    let part = part_of_posting(view, reach, &entry)?;
    Ok(Some(Landed {
        slot,
        vouched,
        part: Some(part),
    }))
}
