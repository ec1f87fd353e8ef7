//! Rule 5: journals.
ghost use Rattle.std.specs.Prelude.{◌↔◌, IsTrue};
ghost use Rattle.tamper_rules.specs.Rules.{Journals};
ghost use Rattle.log_audit.specs.KeptVolumes.{FindsIn, KeepsBelow, image_in};
ghost use Rattle.log_audit.specs.Kept.{image_of_kept};
ghost use Rattle.log_audit.specs.Stored.{FitsInSlot};
ghost use Rattle.slot_audit.specs.Journals.{BlankFinds, AreAllWritten, AreWritten, IsOrdered, PlacesFind};

use crate::entries::is_in_order;
use cell_types::Evidence;
use log_audit::{KeptCells, KeptVolume, StoredSlot};
use tamper_rules::BROKEN_JOURNAL;

/// The first cell at which rule 5 is broken: the commit cell of a slot with a blank journal cell, or else a journal
/// cell that is not in order.
pub fn first_broken_journal(volume: &KeptVolume) -> Option<Evidence>
    requires met { KeepsBelow volume.now 5 }
    ensures { FindsIn volume.now Journals result }
{
    // Each commit cell lies below each journal cell.
    if let Some(commit) = first_blank_journal(volume) {
        return Some(commit);
    }
    first_disorder(volume)
}

/// The first commit cell of a slot whose journal has a blank cell.
fn first_blank_journal(volume: &KeptVolume) -> Option<Evidence>
    ensures { BlankFinds volume.now.geometry (image_in volume.now) result }
{
    for slot in 0..volume.geometry.slots() {
        let Some(stored) = volume.stored_slot(slot) else {
            continue;
        };
        if is_journal_written(&volume.kept, &stored) {
            continue;
        }
        let cell = volume.geometry.outcome_at(slot);
        let Some(found) = volume.kept.at(cell) else {
            unreachable!();
        };
        return Some(Evidence {
            rule: BROKEN_JOURNAL,
            cell,
            found,
        });
    }
    None
}

/// Whether each cell of a slot's journal is written.
fn is_journal_written(kept: &KeptCells, stored: &StoredSlot) -> bool
    requires { FitsInSlot stored.now }
    ensures { IsTrue result ↔ AreWritten (image_of_kept kept.now) stored.now }
{
    let from = stored.journal_at();
    for place in 0..stored.journal {
        if kept.at(from + place).is_none() {
            return false;
        }
    }
    true
}

/// The first journal cell that is not in order, where each is written.
fn first_disorder(volume: &KeptVolume) -> Option<Evidence>
    requires met { KeepsBelow volume.now 5 }
    requires written { AreAllWritten volume.now.geometry (image_in volume.now) }
    ensures { FindsIn volume.now Journals result }
{
    for slot in 0..volume.geometry.slots() {
        let Some(stored) = volume.stored_slot(slot) else {
            continue;
        };
        let Some(entry) = first_disorder_of(volume, &stored) else {
            continue;
        };
        return Some(entry);
    }
    None
}

/// The first cell of a slot's journal that is not in order, where each is written.
fn first_disorder_of(volume: &KeptVolume, stored: &StoredSlot) -> Option<Evidence>
    requires met { KeepsBelow volume.now 5 }
    requires cells { FitsInSlot stored.now }
    requires written { AreWritten (image_in volume.now) stored.now }
    ensures { PlacesFind (IsOrdered volume.now.geometry (image_in volume.now) stored.now)
        (image_in volume.now) Journals stored.now result }
{
    let from = stored.journal_at();
    for place in 0..stored.journal {
        if is_in_order(volume, stored, place) {
            continue;
        }
        let cell = from + place;
        let Some(found) = volume.kept.at(cell) else {
            unreachable!();
        };
        return Some(Evidence {
            rule: BROKEN_JOURNAL,
            cell,
            found,
        });
    }
    None
}
