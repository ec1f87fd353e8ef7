//! Nodes, pointers, buckets and child cells.
ghost use Rattle.std.specs.Prelude.{IfOk};
ghost use Rattle.list_audit.specs.Blocks.{AreBlocksForTwo};
ghost use Rattle.log_audit.specs.Kept.{image_of_kept};
ghost use Rattle.log_audit.specs.KeptVolumes.{FindsIn, HasAllCells, IsStated, KeepsBelow, KeepsRule, image_in};
ghost use Rattle.tamper_rules.specs.Rules.{Buckets, Children, Documents, Journals, Pointers, ReserveCells};
ghost use Rattle.tree_audit.specs.Nodes.{AreNodes};

use cell_types::{Evidence, Geometry, NoMemory};
use list_audit::ListBlocks;
use log_audit::{KeptCells, KeptVolume};
use std::alloc::Global;
use tree_audit::{
    TreeNodes, first_broken_bucket, first_broken_child, first_broken_pointer, nodes_of,
};

/// `nodes_of`.
pub fn nodes_of_again(
    alloc: Global,
    kept: &KeptCells,
    geometry: &Geometry,
) -> Result<TreeNodes, NoMemory>
    ensures { IfOk result (λ tree. AreNodes geometry.now (image_of_kept kept.now) tree) }
{
    nodes_of(alloc, kept, geometry)
}

/// `first_broken_pointer`.
pub fn broken_pointer_again(
    volume: &KeptVolume,
    blocks: &ListBlocks,
    nodes: &TreeNodes,
) -> Option<Evidence>
    requires met { KeepsBelow volume.now 10 }
    requires blocks { AreBlocksForTwo volume.now.geometry (image_in volume.now) blocks.now }
    requires nodes { AreNodes volume.now.geometry (image_in volume.now) nodes.now }
    ensures { FindsIn volume.now Pointers result }
{
    first_broken_pointer(volume, blocks, nodes)
}

/// `first_broken_bucket`.
pub fn broken_bucket_again(volume: &KeptVolume, nodes: &TreeNodes) -> Option<Evidence>
    requires stated { IsStated volume.now }
    requires count { HasAllCells volume.now }
    requires documents { KeepsRule volume.now Documents }
    requires nodes { AreNodes volume.now.geometry (image_in volume.now) nodes.now }
    ensures { FindsIn volume.now Buckets result }
{
    first_broken_bucket(volume, nodes)
}

/// `first_broken_child`.
pub fn broken_child_again(
    volume: &KeptVolume,
    blocks: &ListBlocks,
    nodes: &TreeNodes,
) -> Option<Evidence>
    requires met { KeepsRule volume.now ReserveCells }
    requires journals { KeepsRule volume.now Journals }
    requires blocks { AreBlocksForTwo volume.now.geometry (image_in volume.now) blocks.now }
    requires nodes { AreNodes volume.now.geometry (image_in volume.now) nodes.now }
    ensures { FindsIn volume.now Children result }
{
    first_broken_child(volume, blocks, nodes)
}
