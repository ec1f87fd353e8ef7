//! How many slots and cells there are.
ghost use Rattle.std.specs.Prelude.{◌<◌, ◌↔◌, IsTrue};
ghost use Rattle.volume_meaning.specs.Slots.{IsDoneSlot, IsAbandonedSlot};
ghost use Rattle.log_audit.specs.KeptVolumes.{HasAllCells, image_in};
ghost use Rattle.volume_audit.specs.Counts.{Counts};
ghost use Rattle.volume_audit.specs.Reports.{IsReport};

use log_audit::{EndedSlot, KeptVolume};

/// What an audit found of a sound volume.
#[derive(Clone, Copy, Debug, PartialEq, Eq)]
pub struct AuditReport {
    /// How many slots are done.
    pub done: u32,
    /// How many are abandoned.
    pub abandoned: u32,
    /// How many cells of the device are written.
    pub written: u32,
}

/// The numbers of a volume whose cells are kept.
pub(crate) fn report_of(volume: &KeptVolume) -> AuditReport
    requires count { HasAllCells volume.now }
    ensures { IsReport volume.now.geometry (image_in volume.now) result }
{
    AuditReport {
        done: count_done(volume),
        abandoned: count_abandoned(volume),
        written: volume.kept.written(),
    }
}

/// How many slots are done.
fn count_done(volume: &KeptVolume) -> u32
    ensures { Counts (IsDoneSlot volume.now.geometry (image_in volume.now)) volume.now.geometry.slots result }
{
    let mut done = 0;
    for slot in 0..volume.geometry.slots() {
        if is_done(volume, slot) {
            done += 1;
        }
    }
    done
}

/// How many slots are abandoned.
fn count_abandoned(volume: &KeptVolume) -> u32
    ensures { Counts (IsAbandonedSlot volume.now.geometry (image_in volume.now) (image_in volume.now))
        volume.now.geometry.slots result }
{
    let mut abandoned = 0;
    for slot in 0..volume.geometry.slots() {
        if is_abandoned(volume, slot) {
            abandoned += 1;
        }
    }
    abandoned
}

/// Whether a slot is done.
fn is_done(volume: &KeptVolume, slot: u32) -> bool
    requires inside { slot < volume.now.geometry.slots }
    ensures { IsTrue result ↔ IsDoneSlot volume.now.geometry (image_in volume.now) slot }
{
    let Some(ended) = volume.log.at(slot) else {
        return false;
    };
    match ended {
        EndedSlot::Done { .. } => true,
        EndedSlot::Abandoned { .. } => false,
    }
}

/// Whether a slot is abandoned.
fn is_abandoned(volume: &KeptVolume, slot: u32) -> bool
    requires inside { slot < volume.now.geometry.slots }
    ensures { IsTrue result ↔ IsAbandonedSlot volume.now.geometry (image_in volume.now)
        (image_in volume.now) slot }
{
    let Some(ended) = volume.log.at(slot) else {
        return false;
    };
    match ended {
        EndedSlot::Done { .. } => false,
        EndedSlot::Abandoned { .. } => true,
    }
}
