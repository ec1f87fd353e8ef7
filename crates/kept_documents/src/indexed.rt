//! Whether the index leads to a document.
ghost use Rattle.std.specs.Prelude.{◌≡◌, ◌<◌, ◌≤◌};
ghost use Rattle.term_tags.specs.Listing.{MayHaveStamp};
ghost use Rattle.kept_documents.specs.Indexed.{AsksIndexed};
ghost use Rattle.kept_documents.specs.Postings.{AsksPostings};

use crate::fault::AskFault;
use crate::hash_trails::has_hash_trail;
use crate::rows::are_trailed;
use crate::stamps::slot_stamp;
use cell_types::{Refusal, Volume};
use std::alloc::Global;
use term_tags::document_postings;
use volume_meaning::rule_of;
use word_reader::words;
use worm_device::View;

/// Whether a slot has a stamp where its volume's documents do, the postings of its document exist and have their trails,
/// and the slot has a hash trail.
pub(crate) fn is_indexed<V: View>(
    alloc: Global,
    view: &mut V,
    volume: &Volume,
    slot: u32,
    id: &[u8],
    body: &[u8],
) -> Result<bool, AskFault>
    requires slot { slot < volume.now.geometry.slots }
    requires size { volume.now.geometry.cells ≡ (V.seen view.old).cells }
    ensures { AsksIndexed volume.now.geometry slot id.now body.now (V.seen view.old) (V.seen view.new) result }
{
    let Ok(found) = slot_stamp(view, volume, slot) else {
        return Err(AskFault::ReadFault);
    };
    let Some(stamp) = found else {
        return Ok(false);
    };
    let listed = match has_postings(alloc, view, volume, slot, body, stamp.seconds) {
        Ok(listed) => listed,
        Err(why) => return Err(why),
    };
    if !listed {
        return Ok(false);
    }
    let Ok(led) = has_hash_trail(view, volume, slot, id) else {
        return Err(AskFault::ReadFault);
    };
    Ok(led)
}

/// Whether the postings of a slot's document, which has this stamp, exist and have their trails.
fn has_postings<V: View>(
    alloc: Global,
    view: &mut V,
    volume: &Volume,
    slot: u32,
    body: &[u8],
    stamp: Option<u32>,
) -> Result<bool, AskFault>
    requires slot { slot < volume.now.geometry.slots }
    requires size { volume.now.geometry.cells ≤ (V.seen view.old).cells }
    requires stamp { MayHaveStamp volume.now.geometry stamp }
    ensures { AsksPostings volume.now.geometry slot body.now stamp (V.seen view.old) (V.seen view.new) result }
{
    // Known of a layout once it is asked for: its limits.
    let _slots = volume.geometry.slots();
    let terms = words(alloc, body, rule_of(volume.geometry.version()))?;
    let rows = match document_postings(alloc, &terms, volume.geometry.lists(), slot, stamp) {
        Ok(rows) => rows,
        Err(Refusal::TooManyTerms { .. }) => return Ok(false),
        // Nothing else is refused but for want of memory.
        Err(refusal) => return Err(AskFault::NoMemory(refusal.lack())),
    };
    let Ok(trailed) = are_trailed(view, &volume.geometry, &rows) else {
        return Err(AskFault::ReadFault);
    };
    Ok(trailed)
}
