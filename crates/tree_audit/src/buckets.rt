//! Rule 11: the buckets of nodes.
ghost use Rattle.std.specs.Prelude.{◌<◌, ◌+◌, ◌^◌, ◌↔◌, IsTrue};
ghost use Rattle.tamper_rules.specs.Rules.{Buckets, Documents, IsTrueBucket};
ghost use Rattle.log_audit.specs.KeptVolumes.{FindsIn, FindsPartIn, HasAllCells, IsStated, KeepsRule, image_in};
ghost use Rattle.tree_audit.specs.Buckets.{AsksBucket};
ghost use Rattle.tree_audit.specs.Nodes.{AreNodes, IsSomeNode};

use crate::documents::identifier_digest;
use crate::looks::bucket_at;
use crate::nodes::TreeNodes;
use crate::paths::goes_by;
use crate::rows::cell_of;
use cell_types::Evidence;
use log_audit::{KeptVolume, lies_behind, lower_of};
use tamper_rules::FAKE_BUCKET;
use volume_meaning::NODE_BUCKETS;

/// The least bucket at which rule 11 is broken, among those of all nodes, where rule 4 is kept.
pub fn first_broken_bucket(volume: &KeptVolume, nodes: &TreeNodes) -> Option<Evidence>
    requires stated { IsStated volume.now }
    requires count { HasAllCells volume.now }
    requires documents { KeepsRule volume.now Documents }
    requires nodes { AreNodes volume.now.geometry (image_in volume.now) nodes.now }
    ensures { FindsIn volume.now Buckets result }
{
    let _cells = volume.geometry.cells();
    let mut least = None;
    for number in &nodes.nodes {
        let node = cell_of(*number);
        // Nodes may meet where cells were tampered with, and what lies behind was found.
        if lies_behind(&least, node) {
            continue;
        }
        let found = broken_in_node(volume, node);
        least = lower_of(least, found);
    }
    least
}

/// The first bucket of a node at which rule 11 is broken.
fn broken_in_node(volume: &KeptVolume, node: u32) -> Option<Evidence>
    requires stated { IsStated volume.now }
    requires count { HasAllCells volume.now }
    requires documents { KeepsRule volume.now Documents }
    requires node { IsSomeNode volume.now.geometry (image_in volume.now) node }
    ensures { FindsPartIn volume.now Buckets
        (AsksBucket volume.now.geometry (image_in volume.now) node) result }
{
    let _cells = volume.geometry.cells();
    for x in 0..NODE_BUCKETS {
        let cell = node + x;
        let Some(found) = volume.kept.at(cell) else {
            continue;
        };
        if is_true_bucket(volume, node, x) {
            continue;
        }
        return Some(Evidence {
            rule: FAKE_BUCKET,
            cell,
            found,
        });
    }
    None
}

/// Whether bucket x of the node names a live slot, with the fingerprint of its document's identifier and on the path of
/// that identifier.
fn is_true_bucket(volume: &KeptVolume, node: u32, x: u32) -> bool
    requires stated { IsStated volume.now }
    requires count { HasAllCells volume.now }
    requires documents { KeepsRule volume.now Documents }
    requires inside { node + x < 2 ^ 32 }
    ensures { IsTrue result ↔ IsTrueBucket volume.now.geometry (image_in volume.now) node x }
{
    let Some(bucket) = bucket_at(&volume.kept, node + x) else {
        return false;
    };
    let Some(digest) = identifier_digest(volume, bucket.slot) else {
        return false;
    };
    if !bucket.has_fingerprint(&digest) {
        return false;
    }
    goes_by(&volume.kept, &volume.geometry, &digest, node, x)
}
