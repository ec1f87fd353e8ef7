//! The cells of one node.
ghost use Rattle.std.specs.Prelude.{◌<◌, ◌≤◌};
ghost use Rattle.hash_tree.specs.Levels.{AreBounds, IsLevelPlaced};
ghost use Rattle.hash_tree.specs.Looking.{IsCandidateBucket, LooksAtNode, ReadsBucket, ReadsChild};

use crate::level::{ChildCell, Level};
use crate::looks::Here;
use crate::path::Open;
use cell_types::{Fault, RecordCell, Volume, breach};
use tamper_rules::{FAKE_BUCKET, LOST_CHILD};
use volume_meaning::{HeldBucket, NODE_BUCKETS, nibble_of};
use worm_device::{View, record_at};

/// A digest has 64 half bytes.
const LAST_LEVEL: u8 = 63;

/// Looks at the bucket of a level, and where this is no candidate, at the child cell under it. At most two reads.
pub fn look_here<V: View>(
    view: &mut V,
    volume: &Volume,
    edge: u32,
    level: &Level,
) -> Result<Here, Fault>
    requires size { volume.now.geometry.cells ≤ (V.seen view.old).cells }
    requires bounds { AreBounds volume.now.geometry edge }
    requires level { IsLevelPlaced volume.now.geometry edge (V.seen view.old) level.now }
    ensures { LooksAtNode volume.now.geometry edge level.now (V.seen view.old) (V.seen view.new) result }
{
    let node = level.node(&volume.geometry);
    let x = u32::from(nibble_of(&level.digest, level.number));
    let bucket = node + x;
    let Some(held) = bucket_here(view, bucket)? else {
        return Ok(Here::Ends(Open {
            bucket,
            child: None,
        }));
    };
    if is_candidate(level, &held) {
        return Ok(Here::Fits {
            slot: held.slot,
            bucket,
        });
    }
    if level.number == LAST_LEVEL {
        return Ok(Here::Last);
    }
    let child = node + NODE_BUCKETS + x;
    let Some(led) = child_here(view, child, volume.geometry.pool_at(), edge)? else {
        return Ok(Here::Ends(Open {
            bucket,
            child: Some(child),
        }));
    };
    Ok(Here::Leads(led))
}

/// Whether the level's bucket is a candidate that was not answered yet.
fn is_candidate(level: &Level, held: &HeldBucket) -> bool
    ensures { IsCandidateBucket level.now held.now result }
{
    if level.answered {
        return false;
    }
    held.has_fingerprint(&level.digest)
}

/// What a bucket holds, `None` where it is blank. A written cell that is no bucket is evidence.
fn bucket_here<V: View>(view: &mut V, at: u32) -> Result<Option<HeldBucket>, Fault>
    requires { at < (V.seen view.old).cells }
    ensures { ReadsBucket at (V.seen view.old) (V.seen view.new) result }
{
    let Some(found) = record_at(view, at, FAKE_BUCKET)? else {
        return Ok(None);
    };
    let RecordCell::Bucket { slot, fingerprint } = found.held else {
        return Err(breach(FAKE_BUCKET, at, found.cell));
    };
    Ok(Some(HeldBucket { slot, fingerprint }))
}

/// Where a child cell leads, `None` where it is blank. A written cell that is no child cell is evidence, and so is one
/// whose node does not lie from the pool's start up to the edge.
fn child_here<V: View>(
    view: &mut V,
    at: u32,
    pool: u32,
    edge: u32,
) -> Result<Option<ChildCell>, Fault>
    requires { at < (V.seen view.old).cells }
    ensures { ReadsChild at pool edge (V.seen view.old) (V.seen view.new) result }
{
    let Some(found) = record_at(view, at, LOST_CHILD)? else {
        return Ok(None);
    };
    let RecordCell::Child { target } = found.held else {
        return Err(breach(LOST_CHILD, at, found.cell));
    };
    if target < pool || u64::from(target) + 32 > u64::from(edge) {
        return Err(breach(LOST_CHILD, at, found.cell));
    }
    Ok(Some(ChildCell {
        cell: at,
        found: found.cell,
        target,
    }))
}
