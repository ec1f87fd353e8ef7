//! Whether a slot has a hash trail.
ghost use Rattle.std.specs.Prelude.{◌≡◌, ◌<◌, ◌≤◌, ◌+◌};
ghost use Rattle.sha2.specs.Sha256.{sha256};
ghost use Rattle.cell_types.specs.Layout.{root_at};
ghost use Rattle.volume_meaning.specs.declared.nodes.TheConstants.{NODE_CELLS};
ghost use Rattle.kept_documents.specs.HashTrails.{AsksPath};

use crate::buckets::is_passed;
use crate::node_cells::{bucket_at, child_at};
use cell_types::Volume;
use volume_meaning::{NODE_BUCKETS, digest_of, nibble_of};
use worm_device::{Failed, View};

/// A digest has 64 half bytes, so there is no level below this one.
const LAST_LEVEL: u8 = 63;

/// Whether the slot has a hash trail from the root as that of this identifier. Its own document is not read: a hash trail
/// says nothing of what stands in the slot.
///
/// # Errors
///
/// `Failed` where a read failed.
pub fn has_hash_trail<V: View>(
    view: &mut V,
    volume: &Volume,
    slot: u32,
    id: &[u8],
) -> Result<bool, Failed>
    requires size { volume.now.geometry.cells ≡ (V.seen view.old).cells }
    ensures { AsksPath volume.now.geometry id.now slot (root_at volume.now.geometry) 0 (V.seen view.old)
        (V.seen view.new) result }
{
    let digest = digest_of(id);
    leads_down(
        view,
        volume,
        slot,
        id,
        &digest,
        volume.geometry.root_at(),
        0,
    )
}

/// The same from a node of this level.
fn leads_down<V: View>(
    view: &mut V,
    volume: &Volume,
    slot: u32,
    id: &[u8],
    digest: &[u8; 32],
    node: u32,
    level: u8,
) -> Result<bool, Failed>
    requires size { volume.now.geometry.cells ≡ (V.seen view.old).cells }
    requires digest { digest.now ≡ sha256 id.now }
    requires inside { node + NODE_CELLS ≤ (V.seen view.old).cells }
    requires level { level < 64 }
    ensures { AsksPath volume.now.geometry id.now slot node level (V.seen view.old) (V.seen view.new) result }
{
    let x = u32::from(nibble_of(digest, level));
    let Ok(found) = bucket_at(view, node + x) else {
        return Err(Failed);
    };
    let Some(bucket) = found else {
        return Ok(false);
    };
    if bucket.is_own(slot, digest) {
        return Ok(true);
    }
    let Ok(passed) = is_passed(view, volume, &bucket, id, digest) else {
        return Err(Failed);
    };
    if !passed {
        return Ok(false);
    }
    if level == LAST_LEVEL {
        return Ok(false);
    }
    let Ok(under) = child_at(view, node + NODE_BUCKETS + x) else {
        return Err(Failed);
    };
    let Some(target) = under else {
        return Ok(false);
    };
    if target < volume.geometry.pool_at() {
        return Ok(false);
    }
    if u64::from(target) + 32 > u64::from(view.cells()) {
        return Ok(false);
    }
    leads_down(view, volume, slot, id, digest, target, level + 1)
}
