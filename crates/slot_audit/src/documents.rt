//! Rule 4: documents.
ghost use Rattle.std.specs.Prelude.{◌≤◌, ◌+◌, ◌↔◌, IsTrue};
ghost use Rattle.volume_meaning.specs.Slots.{cells_for};
ghost use Rattle.tamper_rules.specs.Rules.{HasDocument, Documents};
ghost use Rattle.log_audit.specs.KeptVolumes.{FindsIn, HasAllCells};
ghost use Rattle.log_audit.specs.Kept.{image_of_kept, count_of};

use cell_types::Evidence;
use document_store::read_document;
use log_audit::{KeptCells, KeptVolume, Shown};
use tamper_rules::BROKEN_DOCUMENT;

/// The first commit cell at which rule 4 is broken.
pub fn first_broken_document(volume: &KeptVolume) -> Option<Evidence>
    requires count { HasAllCells volume.now }
    ensures { FindsIn volume.now Documents result }
{
    for slot in 0..volume.geometry.slots() {
        let Some(stored) = volume.stored_slot(slot) else {
            continue;
        };
        if spells_document(&volume.kept, stored.document_at(), stored.bytes) {
            continue;
        }
        let cell = volume.geometry.outcome_at(slot);
        let Some(found) = volume.kept.at(cell) else {
            unreachable!();
        };
        return Some(Evidence {
            rule: BROKEN_DOCUMENT,
            cell,
            found,
        });
    }
    None
}

/// Whether so many stored bytes from this cell on spell a document.
fn spells_document(kept: &KeptCells, start: u32, bytes: u32) -> bool
    requires { start + cells_for bytes ≤ count_of kept.now }
    ensures { IsTrue result ↔ HasDocument (image_of_kept kept.now) start bytes }
{
    let mut shown = Shown::new(kept);
    let Ok(_head) = read_document(&mut shown, start, bytes) else {
        return false;
    };
    true
}
