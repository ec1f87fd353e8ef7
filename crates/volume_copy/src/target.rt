//! How a copy begins on the target.
ghost use Rattle.std.specs.Prelude.{◌≡◌, ◌≤◌};
ghost use Rattle.volume_copy.specs.Adding.{CanBeRead};
ghost use Rattle.volume_copy.specs.Beginning.{BeginsCopy, IsStatedOther};

use crate::audited::{AuditedVolume, audited_volume};
use crate::comparing::compare;
use crate::moved::Moved;
use crate::refused::{other_volume, to_target};
use cell_types::{Cell, CopyRefusal, Refusal};
use commit_record::volume_of;
use host_ports::Meter;
use ingest_engine::format_volume;
use std::alloc::Global;
use worm_device::Device;

/// Formats a target whose cell 0 is blank, with these numbers and the source's version, and else compares the volume that is
/// there with the source. Answers the pairs of the documents that are there.
pub(crate) fn begin<D: Device, E: Device, M: Meter>(
    alloc: Global,
    from: &mut D,
    source: &AuditedVolume,
    to: &mut E,
    slots: u32,
    lists: u16,
    meter: &mut M,
) -> Result<Vec<Moved>, CopyRefusal>
    requires source { CanBeRead (D.state from.old) source.now }
    requires version { source.now.volume.version ≡ source.now.volume.geometry.version }
    ensures { BeginsCopy slots lists source.now (D.state from.old) (D.state from.new) (E.state to.old) (E.state to.new)
        result }
{
    let version = source.volume.geometry.version();
    let Ok(found) = to.read(0) else {
        return Err(CopyRefusal::To(Refusal::DeviceFault));
    };
    let Some(cell) = found else {
        return match format_volume(to, slots, lists, version) {
            Ok(()) => Ok(Vec::new(alloc)),
            Err(refusal) => Err(to_target(refusal)),
        };
    };
    if states_other(cell, to.cells(), slots, lists, version) {
        return Err(other_volume(cell));
    }
    match audited_volume(alloc, to, meter) {
        Ok(target) => compare(alloc, from, source, to, &target),
        Err(refusal) => Err(to_target(refusal)),
    }
}

/// Whether this cell 0 of a device of so many cells states a volume of other numbers.
fn states_other(cell: Cell, cells: u32, slots: u32, lists: u16, version: u8) -> bool
    ensures { IsStatedOther slots lists version cells cell result }
{
    let Ok(volume) = volume_of(Some(cell), cells) else {
        return false;
    };
    let geometry = volume.geometry;
    if geometry.slots() != slots {
        return true;
    }
    if geometry.lists() != lists {
        return true;
    }
    geometry.version() != version
}
