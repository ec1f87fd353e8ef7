//! Where a pointer place leads.
ghost use Rattle.cell_types.specs.declared.record_cell.RecordCell.TheVariants.{Jump};
ghost use Rattle.log_audit.specs.Kept.{image_of_kept};
ghost use Rattle.log_audit.specs.Leads.{LeadEnds};

use cell_types::{Geometry, RecordCell};
use log_audit::{KeptCells, lies_in_pool, record_at};
use volume_meaning::BLOCK_CELLS;

/// The block to which the jump cell there leads, if there is one whose cells lie in the pool.
pub fn pointer_target(kept: &KeptCells, geometry: &Geometry, at: u32) -> Option<u32>
    ensures { LeadEnds geometry.now (image_of_kept kept.now) (λ t. Jump t) BLOCK_CELLS at result }
{
    let Some(held) = record_at(kept, at) else {
        return None;
    };
    let RecordCell::Jump { target } = held else {
        return None;
    };
    if !lies_in_pool(geometry, target, BLOCK_CELLS) {
        return None;
    }
    Some(target)
}
