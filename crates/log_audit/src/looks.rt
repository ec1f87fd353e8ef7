//! Looks at kept cells, and at what they lead to.
ghost use Rattle.std.specs.Prelude.{◌≡◌, ◌<◌, ◌+◌, ◌≤◌, ◌↔◌, ℕ, Some, IfSome, IfNone, IsTrue};
ghost use Rattle.cell_types.specs.declared.record_cell.RecordCell.{RecordCell};
ghost use Rattle.cell_types.specs.declared.geometry.TheConstants.{MAX_CELLS};
ghost use Rattle.volume_meaning.specs.Slots.{Reserves};
ghost use Rattle.volume_meaning.specs.Volumes.{Holds};
ghost use Rattle.log_audit.specs.Kept.{image_of_kept};
ghost use Rattle.log_audit.specs.Leads.{LiesInPool};

use crate::kept::KeptCells;
use cell_types::{Geometry, RecordCell, decode};
use commit_record::Reservation;

/// The record that stands in a cell, if one does that is well-formed there.
pub fn record_at(kept: &KeptCells, at: u32) -> Option<RecordCell>
    ensures some { IfSome result (λ held. Holds (image_of_kept kept.now) at held) }
    ensures none { IfNone result ((held : RecordCell) → Holds (image_of_kept kept.now) at held → ⊥) }
    ensures one { (held : RecordCell) → Holds (image_of_kept kept.now) at held → result ≡ Some held }
{
    let Some(cell) = kept.at(at) else {
        return None;
    };
    decode(cell, at)
}

/// The cells that a slot reserves, where they lie in the pool.
pub fn reservation(kept: &KeptCells, geometry: &Geometry, slot: u32) -> Option<Reservation>
    requires { slot < geometry.now.slots }
    ensures some { IfSome result (λ r. Reserves geometry.now (image_of_kept kept.now) slot r.start r.length) }
    ensures most { IfSome result (λ r. r.start + r.length ≤ MAX_CELLS) }
    ensures none { IfNone result ((start length : ℕ)
        → Reserves geometry.now (image_of_kept kept.now) slot start length → ⊥) }
{
    let Some(held) = record_at(kept, geometry.reserve_at(slot)) else {
        return None;
    };
    let RecordCell::Reserve { start, length } = held else {
        return None;
    };
    let cells = geometry.cells();
    if start < geometry.pool_at() || cells < start || cells - start < length {
        return None;
    }
    Some(Reservation { start, length })
}

/// Whether so many cells from the target on lie in the pool.
pub fn lies_in_pool(geometry: &Geometry, target: u32, count: u32) -> bool
    ensures { IsTrue result ↔ LiesInPool geometry.now count target }
{
    let cells = geometry.cells();
    if target < geometry.pool_at() || cells < target {
        return false;
    }
    count <= cells - target
}
