//! Rules 9 and 13: whether the postings in a volume's lists are those of its documents, and whether each of these has a
//! trail.
//!
//! A query finds a document by the postings of its words, and comes to a posting by its key alone: from the list's first
//! block on, by the pointer in whose span the key lies. So an index owes each document that is done a **trail** for each
//! of its postings, and may hold no posting besides:
//!
//!     cell 6      done, slot 0        body `hello world`, so list 0 owes it two postings, with the keys 0 and 1
//!     cell 36     key 0, last 1       rule 9: it is the one of `hello`; rule 13: it is in the front of a first block
//!     cell 37     blank               rule 13 is broken at cell 6: nothing stands at the place of key 1
//!     cell 292    key 0, last 1       rule 9 is broken there: `hello` is of list 0, and 292 is a place of list 1
//!
//! What a document is owed is made again from its body, as an ingest makes it, but that keys of words are kept from one
//! document to the next. A document that would have more than 256 postings in one list has none, and breaks rule 13.
//!
//! **Rule 9** is asked of each posting in each block. So what all documents are owed is put into one row in order, and a
//! posting is looked up by all that it says: its list, its key, its greatest ordinal and its tag. That costs 16 bytes a
//! posting, and a posting is two written cells, its own and its copy in a journal: with the 20 bytes of each kept cell 56
//! bytes for the two. Room for as many postings as journals hold is taken at once.
//!
//! A block to which many lists lead is known for two of them, which suffices where its first posting is not owed to both:
//! then its first cell breaks the rule for one of the two, and whatever the other lists are owed, no cell of the block is
//! less. It may be owed to both where two words have one tag, and a third list might not be owed it: there all are listed.
//!
//! **Rule 13** is asked at each done cell, once the rules of lower numbers are kept. That makes a step of a trail short:
//! the entries of a block stand without a gap and by rising keys, so that the place of a key is found in 10 looks, and
//! mostly in one; and each pointer that is written leads well. Spans grow narrower from block to block, by a factor of
//! 16 at least, so that a trail has 9 blocks at most. The postings of rule 9 are taken, list by list and by rising keys.
//! Only where one of them has no trail, or a document has none, is it asked slot by slot which is the first.
//!
//! What is asked of a caller is that cell 0 states the volume, and that lower rules are kept: the calls that check them
//! say so.
//!
//! Rule 13 is checked here and in `trails.rt`, rule 9 in `postings.rt` and `table.rt`; `specs/Trails.antt` says what a step
//! of a trail answers, and `specs/Owing.antt` what is owed.
ghost use Rattle.std.specs.Prelude.{◌≡◌, ◌<◌, ◌↔◌, ℕ, IfOk, IsTrue, Some, slice_get};
ghost use Rattle.cell_types.specs.Layout.{all_lists};
ghost use Rattle.volume_meaning.specs.Postings as paths;
ghost use Rattle.tamper_rules.specs.Rules.{Documents, Entries, Pointers, Trails};
ghost use Rattle.log_audit.specs.KeptVolumes.{FindsIn, IsStated, KeepsBelow, KeepsRule, image_in};
ghost use Rattle.log_audit.specs.Kept.{image_of_kept};
ghost use Rattle.log_audit.specs.Findings.{IsMetAll};
ghost use Rattle.log_audit.specs.Stored.{IsStored};
ghost use Rattle.list_audit.specs.Keeping.{AreLedTo, HaveTrails, KeepsTrailRule};
ghost use Rattle.list_audit.specs.Owed.{IsAllOwed};

use crate::blocks::list_count;
use crate::listing::postings_of;
use crate::table::{OwedPostings, PostingTable, listed_in};
use crate::trails::{TrailEnd, end_of_trail, has_trail};
use cell_types::{Evidence, Geometry, NoMemory};
use host_ports::{Meter, Work};
use log_audit::{KeptCells, KeptVolume, StoredSlot};
use std::alloc::Global;
use tamper_rules::MISSING_TRAIL;
use term_tags::{KnownKeys, ListedPosting};

/// The first done cell at which rule 13 is broken, by what documents are owed, where the rules of lower numbers are
/// kept. The meter is shown how many of the slots' checks are made, of which this is the second one of each.
///
/// # Errors
///
/// `NoMemory`.
pub fn first_broken_trail<M: Meter>(
    alloc: Global,
    volume: &KeptVolume,
    owed: &OwedPostings,
    meter: &mut M,
) -> Result<Option<Evidence>, NoMemory>
    requires stated { IsStated volume.now }
    requires met { KeepsBelow volume.now 13 }
    requires owed { IsAllOwed volume.now owed.now }
    ensures { IfOk result (λ found. FindsIn volume.now Trails found) }
{
    // All trails are followed list by list, where neighbours are near. Which slot misses one is asked only if one does.
    let is_kept = is_kept_by_all(volume, owed);
    let slots = volume.log.slots.len() as u64;
    let checks = slots.saturating_mul(2);
    for slot in 0..volume.geometry.slots() {
        let Some(stored) = volume.stored_slot(slot) else {
            continue;
        };
        let made = slots.saturating_add(u64::from(slot));
        meter.show(Work::Checking, made, checks);
        if is_kept {
            continue;
        }
        if keeps_trail_rule(alloc, &volume.kept, &volume.geometry, &stored)? {
            continue;
        }
        let cell = volume.geometry.done_at(slot);
        let Some(found) = volume.kept.at(cell) else {
            unreachable!();
        };
        return Ok(Some(Evidence {
            rule: MISSING_TRAIL,
            cell,
            found,
        }));
    }
    meter.show(Work::Checking, checks, checks);
    Ok(None)
}

/// Whether rule 13 is kept at each slot: the postings of each document exist, and each of them has a trail.
fn is_kept_by_all(volume: &KeptVolume, owed: &OwedPostings) -> bool
    requires entries { KeepsRule volume.now Entries }
    requires pointers { KeepsRule volume.now Pointers }
    requires owed { IsAllOwed volume.now owed.now }
    ensures { IsTrue result → (n : ℕ) → KeepsTrailRule volume.now.geometry (image_in volume.now) n }
{
    let _cells = volume.geometry.cells();
    if !owed.all_exist {
        return false;
    }
    are_led_to(volume, &owed.table)
}

/// Whether each posting of a table has a trail.
fn are_led_to(volume: &KeptVolume, table: &PostingTable) -> bool
    requires entries { KeepsRule volume.now Entries }
    requires pointers { KeepsRule volume.now Pointers }
    ensures { IsTrue result → AreLedTo volume.now.geometry (image_in volume.now) table.now.rows.items }
{
    let lists = list_count(&volume.geometry);
    let mut last = TrailEnd::none();
    for row in &table.rows {
        let (list, posting) = listed_in(row);
        if list >= lists {
            return false;
        }
        let Some(end) = end_of_trail(&volume.kept, &volume.geometry, list, &posting, last) else {
            return false;
        };
        last = end;
    }
    true
}

/// Whether the postings of a stored slot's document exist, and each has a trail.
fn keeps_trail_rule(
    alloc: Global,
    kept: &KeptCells,
    geometry: &Geometry,
    slot: &StoredSlot,
) -> Result<bool, NoMemory>
    requires stored { IsStored geometry.now (image_of_kept kept.now) slot.now }
    requires documents { IsMetAll geometry.now (image_of_kept kept.now) Documents }
    requires entries { IsMetAll geometry.now (image_of_kept kept.now) Entries }
    requires pointers { IsMetAll geometry.now (image_of_kept kept.now) Pointers }
    ensures { IfOk result (λ keeps. IsTrue keeps ↔ KeepsTrailRule geometry.now (image_of_kept kept.now) slot.now.slot) }
{
    let mut known = KnownKeys::for_one_document(alloc, geometry.lists())?;
    let found = postings_of(alloc, kept, geometry, slot, &mut known)?;
    let Some(rows) = found else {
        return Ok(false);
    };
    Ok(have_trails(kept, geometry, &rows))
}

/// Whether each of these postings has a trail.
fn have_trails(kept: &KeptCells, geometry: &Geometry, rows: &[ListedPosting]) -> bool
    requires lists { (i : ℕ) (row : paths.ListedPosting) → slice_get rows.now i ≡ Some row
        → row.list < all_lists geometry.now }
    requires entries { IsMetAll geometry.now (image_of_kept kept.now) Entries }
    requires pointers { IsMetAll geometry.now (image_of_kept kept.now) Pointers }
    ensures { IsTrue result ↔ HaveTrails geometry.now (image_of_kept kept.now) rows.now }
{
    for row in rows {
        if !has_trail(kept, geometry, row.list(), &row.posting()) {
            return false;
        }
    }
    true
}
