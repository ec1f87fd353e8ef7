//! Whether a term's list has a slot.
ghost use Rattle.std.specs.Prelude.{◌≡◌, ◌<◌, ◌≤◌, ◌+◌, ◌↔◌, IsTrue};
ghost use Rattle.byteorder.specs.Endian.{big_number};
ghost use Rattle.cell_types.specs.declared.geometry.TheConstants.{MAX_SLOTS};
ghost use Rattle.posting_list.specs.Keeping.{KeepsSearch};
ghost use Rattle.posting_list.specs.Searches.{ConfirmsSlot, FindsPosting, HasSlot, Probes};
ghost use Rattle.posting_list.specs.declared.has_slot.TheConstants.{HAS_READS};

use crate::live::part_of_posting;
use crate::search::find_in_list;
use crate::{Reach, SoughtTerm};
use byteorder::{BigEndian, ByteOrder};
use cell_types::Fault;
use document_store::Part;
use jump_block::Entry;
use jump_index::KeptSearch;
use worm_device::View;

/// How many reads one ask whether a list has a slot may cost: those of nine searches, 4,096 each, and four of the slot.
pub const HAS_READS: u64 = 36_868;

/// A tag as a number: these rise as tags do in byte order.
fn number_of(tag: &[u8; 6]) -> u64
    ensures { result ≡ big_number 6 tag.now }
{
    BigEndian::read_u48(tag)
}

/// Whether two tags are the same.
pub(crate) fn is_same(a: &[u8; 6], b: &[u8; 6]) -> bool
    ensures { IsTrue result ↔ (a.now ≡ b.now) }
{
    a[..] == b[..]
}

/// The posting of a key, if there is one under this very key.
fn probe<V: View>(
    view: &mut V,
    kept: &mut KeptSearch,
    reach: &Reach,
    list: u16,
    key: u32,
) -> Result<Option<Entry>, Fault>
    requires size { reach.now.volume.geometry.cells ≡ (V.seen view.old).cells }
    requires list { list < reach.now.volume.geometry.lists }
    requires kept { KeepsSearch (V.seen view.old) kept.old }
    ensures kept { KeepsSearch (V.seen view.new) kept.new }
    ensures reads { (V.seen view.new).base.reads ≤ (V.seen view.old).base.reads + 4096 }
    ensures probes { Probes reach.now list key (V.seen view.old) (V.seen view.new) result }
{
    let found = find_in_list(view, kept, reach, list, key)?;
    let Some(entry) = found else {
        return Ok(None);
    };
    if entry.key != key {
        return Ok(None);
    }
    Ok(Some(entry))
}

/// The term's posting of a slot, if its list has one. The slot's postings there have the ordinals from 0 to the last,
/// which ordinal 0 tells, and their tags rise, so that the term's is found by bisection among the others: nine searches
/// at most, and one where the slot has a single posting there.
fn find_posting<V: View>(
    view: &mut V,
    kept: &mut KeptSearch,
    reach: &Reach,
    term: &SoughtTerm,
    slot: u32,
) -> Result<Option<Entry>, Fault>
    requires size { reach.now.volume.geometry.cells ≡ (V.seen view.old).cells }
    requires list { term.now.list < reach.now.volume.geometry.lists }
    requires slot { slot < MAX_SLOTS }
    requires kept { KeepsSearch (V.seen view.old) kept.old }
    ensures kept { KeepsSearch (V.seen view.new) kept.new }
    ensures reads { (V.seen view.new).base.reads ≤ (V.seen view.old).base.reads + 36864 }
    ensures finds { FindsPosting reach.now term.now slot (V.seen view.old) (V.seen view.new) result }
{
    let sought = number_of(&term.tag);
    let first = probe(view, kept, reach, term.list, 256 * slot)?;
    let Some(first) = first else {
        return Ok(None);
    };
    if is_same(&first.tag, &term.tag) {
        return Ok(Some(first));
    }
    // Ordinal 0 has another tag. The ordinals from low up to, but not with, high are left.
    let mut low = 1;
    let mut high = u32::from(first.last) + 1;
    while low < high {
        let middle = low + (high - low) / 2;
        let found = probe(view, kept, reach, term.list, 256 * slot + middle)?;
        let Some(entry) = found else {
            return Ok(None);
        };
        if is_same(&entry.tag, &term.tag) {
            return Ok(Some(entry));
        }
        if number_of(&entry.tag) < sought {
            low = middle + 1;
        } else {
            high = middle;
        }
    }
    Ok(None)
}

/// Whether a term's list has a slot.
pub(crate) fn has_slot<V: View>(
    view: &mut V,
    kept: &mut KeptSearch,
    reach: &Reach,
    term: &SoughtTerm,
    slot: u32,
) -> Result<bool, Fault>
    requires size { reach.now.volume.geometry.cells ≡ (V.seen view.old).cells }
    requires list { term.now.list < reach.now.volume.geometry.lists }
    requires slot { slot < MAX_SLOTS }
    requires kept { KeepsSearch (V.seen view.old) kept.old }
    ensures kept { KeepsSearch (V.seen view.new) kept.new }
    ensures reads { (V.seen view.new).base.reads ≤ (V.seen view.old).base.reads + HAS_READS }
    ensures has { HasSlot reach.now term.now slot (V.seen view.old) (V.seen view.new) result }
{
    let found = find_posting(view, kept, reach, term, slot)?;
    Ok(found.is_some())
}

/// Where the document of a slot lies, if a term's list has the slot.
pub(crate) fn confirm_slot<V: View>(
    view: &mut V,
    kept: &mut KeptSearch,
    reach: &Reach,
    term: &SoughtTerm,
    slot: u32,
) -> Result<Option<Part>, Fault>
    requires size { reach.now.volume.geometry.cells ≡ (V.seen view.old).cells }
    requires list { term.now.list < reach.now.volume.geometry.lists }
    requires slot { slot < MAX_SLOTS }
    requires kept { KeepsSearch (V.seen view.old) kept.old }
    ensures kept { KeepsSearch (V.seen view.new) kept.new }
    ensures reads { (V.seen view.new).base.reads ≤ (V.seen view.old).base.reads + HAS_READS }
    ensures confirms { ConfirmsSlot reach.now term.now slot (V.seen view.old) (V.seen view.new) result }
{
    let found = find_posting(view, kept, reach, term, slot)?;
    let Some(entry) = found else {
        return Ok(None);
    };
    let part = part_of_posting(view, reach, &entry)?;
    Ok(Some(part))
}
