//! Stamps in order.
ghost use Rattle.std.specs.Prelude.{◌<◌, ◌+◌, ◌↔◌, ℕ, IsTrue, IfSome, IfNone};
ghost use Rattle.volume_meaning.specs.Slots.{HasStamp};
ghost use Rattle.tamper_rules.specs.Rules.{IsTrueStamp, StrayCells};
ghost use Rattle.log_audit.specs.KeptVolumes.{FindsPartIn, image_in};
ghost use Rattle.log_audit.specs.Kept.{image_of_kept};
ghost use Rattle.slot_audit.specs.Strays.{IsInTime, IsLatest};

use cell_types::{Evidence, Geometry, RecordCell};
use log_audit::{KeptCells, KeptVolume, record_at};
use tamper_rules::STRAY_CELL;

/// The first spare cell that is written and holds no stamp in order.
pub(crate) fn first_false_stamp(volume: &KeptVolume) -> Option<Evidence>
    ensures { FindsPartIn volume.now StrayCells (IsInTime volume.now.geometry (image_in volume.now)) result }
{
    let mut latest = None;
    for slot in 0..volume.geometry.slots() {
        let before = latest;
        latest = latest_with(volume, slot, before);
        let cell = volume.geometry.spare_at(slot);
        let Some(found) = volume.kept.at(cell) else {
            continue;
        };
        if !is_true_stamp(&volume.kept, &volume.geometry, slot, before) {
            return Some(Evidence {
                rule: STRAY_CELL,
                cell,
                found,
            });
        }
    }
    None
}

/// Whether the spare cell of a slot holds a stamp in order, where this is the greatest stamp of the done slots below it.
fn is_true_stamp(kept: &KeptCells, geometry: &Geometry, slot: u32, latest: Option<u32>) -> bool
    requires inside { slot < geometry.now.slots }
    requires latest { IsLatest geometry.now (image_of_kept kept.now) slot latest }
    ensures { IsTrue result ↔ IsTrueStamp geometry.now (image_of_kept kept.now) slot }
{
    if !geometry.is_stamped() {
        return false;
    }
    if kept.at(geometry.reserve_at(slot)).is_none() {
        return false;
    }
    let Some(seconds) = stamp_at(kept, geometry, slot) else {
        return false;
    };
    match latest {
        Some(lower) => lower < seconds,
        None => true,
    }
}

/// The stamp of a slot, if it has one.
fn stamp_at(kept: &KeptCells, geometry: &Geometry, slot: u32) -> Option<u32>
    requires inside { slot < geometry.now.slots }
    ensures some { IfSome result (λ seconds. HasStamp (image_of_kept kept.now) slot seconds) }
    ensures none { IfNone result ((seconds : ℕ) → HasStamp (image_of_kept kept.now) slot seconds → ⊥) }
{
    let Some(held) = record_at(kept, geometry.spare_at(slot)) else {
        return None;
    };
    match held {
        RecordCell::Stamp { seconds } => Some(seconds),
        _ => None,
    }
}

/// The greatest stamp of the done slots up to this one, where that of the slots below it is given.
fn latest_with(volume: &KeptVolume, slot: u32, latest: Option<u32>) -> Option<u32>
    requires inside { slot < volume.now.geometry.slots }
    requires latest { IsLatest volume.now.geometry (image_in volume.now) slot latest }
    ensures { IsLatest volume.now.geometry (image_in volume.now) (slot + 1) result }
{
    let Some(_stored) = volume.stored_slot(slot) else {
        return latest;
    };
    let Some(seconds) = stamp_at(&volume.kept, &volume.geometry, slot) else {
        return latest;
    };
    let Some(lower) = latest else {
        return Some(seconds);
    };
    Some(lower.max(seconds))
}
