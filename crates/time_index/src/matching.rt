//! The document to which a posting of the time list leads.
ghost use Rattle.std.specs.Prelude.{◌≡◌, ◌<◌, ◌≤◌, ◌+◌, IfSome, IsTrue, Some, false};
ghost use Rattle.cell_types.specs.Layout.{TakesStamps};
ghost use Rattle.document_store.specs.Looks.{IsPartOf, IsStated};
ghost use Rattle.jump_block.specs.Entries.{posting_of};
ghost use Rattle.jump_index.specs.Searches.{IsListEntry, IsEntryBehind};
ghost use Rattle.posting_list.specs.Searches.{head_of, within};
ghost use Rattle.volume_meaning.specs.Slots.{HasStamp, cells_for};
ghost use Rattle.worm_device.specs.Views.{Viewed};
ghost use Rattle.time_index.specs.Matching.{IsEarlier, OrderEnds, ReadsMatch, ReadsPart, StampedPartEnds, stamp_breach};
ghost use Rattle.time_index.specs.Postings.{slot_named};

use crate::found::TimeMatch;
use byteorder::{BigEndian, ByteOrder};
use cell_types::{Fault, Geometry, RecordCell, Refusal, breach, encode};
use commit_record::stamp_of;
use document_store::{Part, identifier_of_head, read_part, slot_part};
use jump_block::Entry;
use posting_list::{Reach, false_posting};
use std::alloc::Global;
use tamper_rules::STRAY_CELL;
use worm_device::View;

/// A slot and its stamp.
#[derive(Clone, Copy)]
pub(crate) struct Stamped {
    pub slot: u32,
    /// In seconds.
    pub seconds: u32,
}

/// The document of a posting's slot, which is live and has the posting's stamp; and behind the slot of an earlier match.
///
/// # Errors
///
/// `Tampered`: the posting, by rule 9, where its slot is not live or has another stamp; the stamp of the earlier match, by
/// rule 7, where the slot lies below it; the slot's cells, by rules 1 to 4. `DeviceFault`; `NoMemory`.
pub(crate) fn match_of<V: View>(
    alloc: Global,
    view: &mut V,
    reach: &Reach,
    entry: &Entry,
    before: Option<Stamped>,
) -> Result<TimeMatch, Refusal>
    requires size { reach.now.volume.geometry.cells ≡ (V.seen view.old).cells }
    requires stamped { TakesStamps reach.now.volume.geometry }
    requires entry { IsListEntry (V.seen view.old).cells entry.now }
    requires behind { IsTrue (V.seen view.old).base.tells → IsEntryBehind (within reach.now) (V.seen view.old).image
        (head_of reach.now reach.now.volume.geometry.lists) entry.now }
    requires before { IfSome before (IsEarlier reach.now.volume.geometry (V.seen view.old) entry.now.key) }
    ensures { ReadsMatch reach.now entry.now before (V.seen view.old) (V.seen view.new) result }
{
    let Some(part) = stamped_part(view, reach, entry)? else {
        return Err(Refusal::from(false_posting(entry)));
    };
    check_order(&reach.volume.geometry, before, part.slot)?;
    read_match(alloc, view, &reach.volume.geometry, &part, entry.key)
}

/// Where the document of a posting's slot lies, where the slot is live and has the posting's stamp.
fn stamped_part<V: View>(view: &mut V, reach: &Reach, entry: &Entry) -> Result<Option<Part>, Fault>
    requires size { reach.now.volume.geometry.cells ≡ (V.seen view.old).cells }
    requires stamped { TakesStamps reach.now.volume.geometry }
    ensures viewed { Viewed (V.seen view.old) (V.seen view.new) }
    ensures reads { (V.seen view.new).base.reads ≤ (V.seen view.old).base.reads + 5 }
    ensures ends { StampedPartEnds reach.now entry.now (V.seen view.old) (V.seen view.new) result }
{
    let slot = slot_of(entry);
    if slot >= reach.horizon.min(reach.volume.geometry.slots()) {
        return Ok(None);
    }
    let Some(part) = slot_part(view, &reach.volume, slot)? else {
        return Ok(None);
    };
    let stamp = stamp_of(view, &reach.volume, slot)?;
    if !is_of(stamp, entry.key) {
        return Ok(None);
    }
    Ok(Some(part))
}

/// Whether the stamp is of these seconds.
fn is_of(stamp: Option<u32>, seconds: u32) -> bool
    ensures yes { IsTrue result → stamp ≡ Some seconds }
    ensures no { result ≡ false → stamp ≡ Some seconds → ⊥ }
{
    let Some(found) = stamp else {
        return false;
    };
    found == seconds
}

/// The slot that a posting of the time list names.
fn slot_of(entry: &Entry) -> u32
    ensures { result ≡ slot_named (posting_of entry.now) }
{
    BigEndian::read_u32(&entry.tag)
}

/// That a slot with a later stamp than the one before does not lie below that one's. Else the stamp before is evidence.
fn check_order(geometry: &Geometry, before: Option<Stamped>, slot: u32) -> Result<(), Fault>
    requires { IfSome before (λ b. b.slot < geometry.now.slots) }
    ensures { OrderEnds before slot result }
{
    let Some(late) = before else {
        return Ok(());
    };
    if slot < late.slot {
        return Err(late_stamp(geometry, &late));
    }
    Ok(())
}

/// The stamp of a slot, as evidence that a lower slot has a greater one.
fn late_stamp(geometry: &Geometry, late: &Stamped) -> Fault
    requires { late.now.slot < geometry.now.slots }
    ensures { result ≡ stamp_breach late.now }
{
    let cell = geometry.spare_at(late.slot);
    let stamp = RecordCell::Stamp {
        seconds: late.seconds,
    };
    breach(STRAY_CELL, cell, encode(stamp, cell))
}

/// Reads the document of a part, each of its cells once, and answers it with this stamp of its slot.
fn read_match<V: View>(
    alloc: Global,
    view: &mut V,
    geometry: &Geometry,
    part: &Part,
    seconds: u32,
) -> Result<TimeMatch, Refusal>
    requires slot { part.now.slot < geometry.now.slots }
    requires size { geometry.now.cells ≤ (V.seen view.old).cells }
    requires inside { part.now.start + cells_for part.now.bytes ≤ geometry.now.cells }
    requires stated { IsStated part.now }
    requires part { IsTrue (V.seen view.old).base.tells
        → IsPartOf geometry.now (V.seen view.old).image part.now.slot part.now }
    requires stamp { IsTrue (V.seen view.old).base.tells → HasStamp (V.seen view.old).image part.now.slot seconds }
    ensures { ReadsPart geometry.now part.now seconds (V.seen view.old) (V.seen view.new) result }
{
    let head = read_part(view, geometry, part)?;
    let identifier = identifier_of_head(alloc, &head)?;
    Ok(TimeMatch {
        slot: part.slot,
        identifier,
        seconds,
        bytes: head.body_length,
    })
}
