//! Rule 6: the targets of journals.
ghost use Rattle.std.specs.Prelude.{◌≡◌, ◌↔◌, Some, IsTrue};
ghost use Rattle.tamper_rules.specs.Rules.{Targets};
ghost use Rattle.log_audit.specs.KeptVolumes.{FindsIn, KeepsBelow};
ghost use Rattle.log_audit.specs.Kept.{image_of_kept};
ghost use Rattle.log_audit.specs.Stored.{FitsInSlot};
ghost use Rattle.slot_audit.specs.Journals.{IsRedone, IsRedoneAt, PlacesFind};

use crate::copies::target_at;
use cell_types::{Cell, Evidence};
use log_audit::{KeptCells, KeptVolume, StoredSlot};
use tamper_rules::OTHER_TARGET;

/// The first journal cell at which rule 6 is broken. No slot of the log is merely committed, so each target holds the
/// same as its copy.
pub fn first_broken_target(volume: &KeptVolume) -> Option<Evidence>
    requires met { KeepsBelow volume.now 6 }
    ensures { FindsIn volume.now Targets result }
{
    for slot in 0..volume.geometry.slots() {
        let Some(stored) = volume.stored_slot(slot) else {
            continue;
        };
        let Some(copy) = first_undone_of(&volume.kept, &stored) else {
            continue;
        };
        return Some(copy);
    }
    None
}

/// The first cell of a slot's journal whose target does not hold the same.
fn first_undone_of(kept: &KeptCells, stored: &StoredSlot) -> Option<Evidence>
    requires { FitsInSlot stored.now }
    ensures { PlacesFind (IsRedone (image_of_kept kept.now) stored.now)
        (image_of_kept kept.now) Targets stored.now result }
{
    let from = stored.journal_at();
    for place in 0..stored.journal {
        let cell = from + place;
        let Some(found) = kept.at(cell) else {
            continue;
        };
        if is_redone(kept, cell, found) {
            continue;
        }
        return Some(Evidence {
            rule: OTHER_TARGET,
            cell,
            found,
        });
    }
    None
}

/// Whether this cell, in which that stands, copies no index cell, or one that holds the same.
fn is_redone(kept: &KeptCells, at: u32, own: Cell) -> bool
    requires { image_of_kept kept.now at ≡ Some own }
    ensures { IsTrue result ↔ IsRedoneAt (image_of_kept kept.now) at }
{
    let Some(target) = target_at(kept, at) else {
        return true;
    };
    let Some(there) = kept.at(target) else {
        return false;
    };
    is_same(own, there)
}

/// Whether both hold the same bytes.
fn is_same(own: Cell, there: Cell) -> bool
    ensures { IsTrue result ↔ (there ≡ own) }
{
    there == own
}
