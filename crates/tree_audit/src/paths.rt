//! The paths of digests.
ghost use Rattle.std.specs.Prelude.{◌↔◌, IsTrue};
ghost use Rattle.log_audit.specs.Kept.{image_of_kept};
ghost use Rattle.tree_audit.specs.Paths.{GoesBy};

use crate::looks::child_at;
use cell_types::Geometry;
use log_audit::KeptCells;
use volume_meaning::{NODE_BUCKETS, nibble_of};

/// A digest has so many half bytes, and its path at most one node for each.
pub(crate) const LEVELS: u8 = 64;

/// Whether the path of the digest comes to the node, and goes by its bucket x there. A path has one node a level.
pub(crate) fn goes_by(
    kept: &KeptCells,
    geometry: &Geometry,
    digest: &[u8; 32],
    node: u32,
    x: u32,
) -> bool
    ensures { IsTrue result ↔ GoesBy geometry.now (image_of_kept kept.now) digest.now node x }
{
    let _cells = geometry.cells();
    let mut at = geometry.root_at();
    for level in 0..LEVELS {
        let nibble = u32::from(nibble_of(digest, level));
        if at == node && nibble == x {
            return true;
        }
        let Some(under) = child_at(kept, geometry, at + NODE_BUCKETS + nibble) else {
            return false;
        };
        at = under;
    }
    false
}
