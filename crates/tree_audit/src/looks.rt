//! Looks at cells of nodes.
ghost use Rattle.cell_types.specs.declared.record_cell.RecordCell.TheVariants.{Child};
ghost use Rattle.log_audit.specs.Kept.{image_of_kept};
ghost use Rattle.log_audit.specs.Leads.{LeadEnds};
ghost use Rattle.tree_audit.specs.Buckets.{BucketAnswers};

use cell_types::{Geometry, RecordCell};
use log_audit::{KeptCells, lies_in_pool, record_at};
use volume_meaning::{HeldBucket, NODE_CELLS};

/// What the bucket there says, if one stands there.
pub(crate) fn bucket_at(kept: &KeptCells, at: u32) -> Option<HeldBucket>
    ensures { BucketAnswers (image_of_kept kept.now) at result }
{
    let Some(held) = record_at(kept, at) else {
        return None;
    };
    HeldBucket::of(held)
}

/// The node to which the child cell there leads, if there is one whose cells lie in the pool.
pub(crate) fn child_at(kept: &KeptCells, geometry: &Geometry, at: u32) -> Option<u32>
    ensures { LeadEnds geometry.now (image_of_kept kept.now) (λ t. Child t) NODE_CELLS at result }
{
    let Some(held) = record_at(kept, at) else {
        return None;
    };
    let RecordCell::Child { target } = held else {
        return None;
    };
    if !lies_in_pool(geometry, target, NODE_CELLS) {
        return None;
    }
    Some(target)
}
