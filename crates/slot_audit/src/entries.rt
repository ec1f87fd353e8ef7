//! Rule 5 at one place of a journal.
ghost use Rattle.std.specs.Prelude.{◌<◌, ◌↔◌, IsTrue};
ghost use Rattle.tamper_rules.specs.Journals.{IsIndexCell};
ghost use Rattle.tamper_rules.specs.Rules.{ReserveCells};
ghost use Rattle.log_audit.specs.KeptVolumes.{KeepsRule, image_in};
ghost use Rattle.log_audit.specs.Kept.{image_of_kept};
ghost use Rattle.log_audit.specs.Stored.{FitsInSlot};
ghost use Rattle.slot_audit.specs.Journals.{IsOrdered, TargetRises};

use crate::copies::target_at;
use log_audit::{KeptCells, KeptVolume, StoredSlot};

/// Whether a place of a slot's journal is in order.
pub fn is_in_order(volume: &KeptVolume, stored: &StoredSlot, place: u32) -> bool
    requires met { KeepsRule volume.now ReserveCells }
    requires cells { FitsInSlot stored.now }
    requires place { place < stored.now.journal }
    ensures { IsTrue result ↔ IsOrdered volume.now.geometry (image_in volume.now) stored.now place }
{
    let Some(target) = target_at(&volume.kept, stored.journal_at() + place) else {
        return false;
    };
    if !rises(&volume.kept, stored, place, target) {
        return false;
    }
    if target >= stored.document_at() {
        return false;
    }
    is_index_cell(volume, stored.slot, target)
}

/// Whether the place is the first, or the one before it copies a lower cell.
fn rises(kept: &KeptCells, stored: &StoredSlot, place: u32, target: u32) -> bool
    requires cells { FitsInSlot stored.now }
    requires place { place < stored.now.journal }
    ensures { IsTrue result ↔ TargetRises (image_of_kept kept.now) stored.now place target }
{
    if place == 0 {
        return true;
    }
    let Some(lower) = target_at(kept, stored.journal_at() + (place - 1)) else {
        return false;
    };
    lower < target
}

/// Whether the cell is an index cell of this slot or a lower one.
fn is_index_cell(volume: &KeptVolume, slot: u32, cell: u32) -> bool
    requires met { KeepsRule volume.now ReserveCells }
    ensures { IsTrue result ↔ IsIndexCell volume.now.geometry (image_in volume.now) slot cell }
{
    // First blocks and the root stand in a row from the first list on, and the pool follows on them.
    if cell < volume.geometry.pool_at() {
        return volume.geometry.lists_at() <= cell;
    }
    let Some(owner) = volume.owner_of(cell) else {
        return false;
    };
    owner <= slot
}
