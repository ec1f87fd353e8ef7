//! What the cells of a block meet: other blocks, and nodes.
ghost use Rattle.std.specs.Prelude.{◌≤◌, ◌↔◌, IsTrue};
ghost use Rattle.log_audit.specs.Kept.{image_of_kept};
ghost use Rattle.list_audit.specs.Blocks.{AreBlocksForTwo};
ghost use Rattle.tree_audit.specs.Nodes.{AreNodes};
ghost use Rattle.tree_audit.specs.Occupied.{IsAlone, IsOffNodes};

use crate::nodes::TreeNodes;
use cell_types::Geometry;
use list_audit::{BLOCK_STEP, ListBlocks};
use log_audit::{KeptCells, has_between};
use volume_meaning::{BLOCK_CELLS, NODE_CELLS};

/// Whether the cells of a block of a list meet no block that begins elsewhere, and none of another list.
pub(crate) fn is_alone(
    _kept: &KeptCells,
    _geometry: &Geometry,
    blocks: &ListBlocks,
    list: u16,
    target: u32,
) -> bool
    requires blocks { AreBlocksForTwo _geometry.now (image_of_kept _kept.now) blocks.now }
    requires room { BLOCK_CELLS ≤ target }
    ensures { IsTrue result ↔ IsAlone _geometry.now (image_of_kept _kept.now) list target }
{
    let own = u64::from(target) * BLOCK_STEP + u64::from(list);
    let first = u64::from(target - (BLOCK_CELLS - 1)) * BLOCK_STEP;
    if has_between(&blocks.numbers, first, own) {
        return false;
    }
    let behind = (u64::from(target) + u64::from(BLOCK_CELLS)) * BLOCK_STEP;
    !has_between(&blocks.numbers, own + 1, behind)
}

/// Whether they meet no node.
pub(crate) fn is_off_nodes(
    _kept: &KeptCells,
    _geometry: &Geometry,
    nodes: &TreeNodes,
    target: u32,
) -> bool
    requires nodes { AreNodes _geometry.now (image_of_kept _kept.now) nodes.now }
    requires room { BLOCK_CELLS ≤ target }
    ensures { IsTrue result ↔ IsOffNodes _geometry.now (image_of_kept _kept.now) target }
{
    let first = u64::from(target - (NODE_CELLS - 1));
    let behind = u64::from(target) + u64::from(BLOCK_CELLS);
    !has_between(&nodes.nodes, first, behind)
}
