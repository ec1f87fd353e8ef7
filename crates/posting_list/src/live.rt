//! The part of a live slot's document, and a posting as evidence that it is none of such a document.
ghost use Rattle.std.specs.Prelude.{◌≡◌, ◌<◌, ◌+◌, ◌%◌, ◌≤◌, ◌^◌};
ghost use Rattle.posting_list.specs.Searches.{HasPostingPart, IsFalsePosting, IsWordEntry, LooksLive};

use crate::Reach;
use cell_types::{Fault, breach};
use commit_record::slot_state;
use document_store::{Part, part_of_state};
use jump_block::Entry;
use tamper_rules::FAKE_POSTING;
use worm_device::View;

/// Where the document of a slot lies, if the slot is done and lies before the horizon. At most four reads.
pub fn live_part<V: View>(view: &mut V, reach: &Reach, slot: u32) -> Result<Option<Part>, Fault>
    requires size { reach.now.volume.geometry.cells ≡ (V.seen view.old).cells }
    ensures reads { (V.seen view.new).base.reads ≤ (V.seen view.old).base.reads + 4 }
    ensures live { LooksLive reach.now slot (V.seen view.old) (V.seen view.new) result }
{
    if slot >= reach.horizon.min(reach.volume.geometry.slots()) {
        return Ok(None);
    }
    let state = slot_state(view, &reach.volume, slot)?;
    Ok(part_of_state(slot, &state))
}

/// Where the document of a posting's slot lies. Where the slot is not live, the posting is evidence (rule 9). At most
/// four reads.
pub(crate) fn part_of_posting<V: View>(
    view: &mut V,
    reach: &Reach,
    entry: &Entry,
) -> Result<Part, Fault>
    requires size { reach.now.volume.geometry.cells ≡ (V.seen view.old).cells }
    requires inside { entry.now.block + entry.now.place < 2 ^ 32 }
    requires well_formed { entry.now.key % 256 ≤ entry.now.last }
    requires stands { IsWordEntry reach.now (V.seen view.old) entry.now }
    ensures reads { (V.seen view.new).base.reads ≤ (V.seen view.old).base.reads + 4 }
    ensures part { HasPostingPart reach.now entry.now (V.seen view.old) (V.seen view.new) result }
{
    let Some(part) = live_part(view, reach, entry.key / 256)? else {
        return Err(false_posting(entry));
    };
    Ok(part)
}

/// The posting is evidence: it is none of a live slot's document.
pub fn false_posting(entry: &Entry) -> Fault
    requires inside { entry.now.block + entry.now.place < 2 ^ 32 }
    requires well_formed { entry.now.key % 256 ≤ entry.now.last }
    ensures { IsFalsePosting entry.now result }
{
    breach(
        FAKE_POSTING,
        entry.block + u32::from(entry.place),
        entry.cell(),
    )
}
