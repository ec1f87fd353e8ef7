//! Rule 10 at one pointer place.
ghost use Rattle.std.specs.Prelude.{◌<◌, ◌≤◌, ◌+◌, ◌^◌, ◌↔◌, ℕ, IsTrue, IfSome, IfNone};
ghost use Rattle.cell_types.specs.declared.record_cell.RecordCell.TheVariants.{Jump};
ghost use Rattle.volume_meaning.specs.Nodes.{IsBlockOf};
ghost use Rattle.volume_meaning.specs.Volumes.{Holds};
ghost use Rattle.tamper_rules.specs.Rules.{LeadsWell};
ghost use Rattle.list_audit.specs.Blocks.{AreBlocksForTwo};
ghost use Rattle.log_audit.specs.KeptVolumes.{KeepsBelow, image_in};
ghost use Rattle.log_audit.specs.Kept.{image_of_kept};
ghost use Rattle.tree_audit.specs.Leading.{IsBeforeEdge, IsOwned};
ghost use Rattle.tree_audit.specs.Nodes.{AreNodes};

use crate::nodes::TreeNodes;
use crate::occupied::{is_alone, is_off_nodes};
use crate::spans::is_in_span;
use cell_types::{Geometry, RecordCell};
use list_audit::{ListBlock, ListBlocks};
use log_audit::{KeptCells, KeptVolume, Log, record_at};
use volume_meaning::BLOCK_CELLS;

/// Whether the pointer of this level and digit leads well from a block.
pub(crate) fn leads_well(
    volume: &KeptVolume,
    blocks: &ListBlocks,
    nodes: &TreeNodes,
    listed: &ListBlock,
    level: u32,
    digit: u32,
) -> bool
    requires met { KeepsBelow volume.now 10 }
    requires blocks { AreBlocksForTwo volume.now.geometry (image_in volume.now) blocks.now }
    requires nodes { AreNodes volume.now.geometry (image_in volume.now) nodes.now }
    requires block { IsBlockOf volume.now.geometry (image_in volume.now) listed.now.list listed.now.block }
    requires room { listed.now.block + BLOCK_CELLS ≤ 2 ^ 31 }
    requires level { level < 8 }
    requires some { 1 ≤ digit }
    requires digit { digit ≤ 15 }
    ensures { IsTrue result
        ↔ LeadsWell volume.now.geometry (image_in volume.now) listed.now.list listed.now.block level digit }
{
    let _cells = volume.geometry.cells();
    let Some(target) = jump_at(&volume.kept, listed.block + (127 + 15 * level + digit)) else {
        return false;
    };
    if !is_inside(&volume.geometry, &volume.log, target) {
        return false;
    }
    if !is_owned(volume, target) {
        return false;
    }
    if !is_in_span(&volume.kept, &volume.geometry, listed, level, digit, target) {
        return false;
    }
    if !is_alone(&volume.kept, &volume.geometry, blocks, listed.list, target) {
        return false;
    }
    is_off_nodes(&volume.kept, &volume.geometry, nodes, target)
}

/// The target of the jump cell that stands there, if one does.
fn jump_at(kept: &KeptCells, at: u32) -> Option<u32>
    ensures some { IfSome result (λ target. Holds (image_of_kept kept.now) at (Jump target)) }
    ensures none { IfNone result ((target : ℕ) → Holds (image_of_kept kept.now) at (Jump target) → ⊥) }
{
    let Some(held) = record_at(kept, at) else {
        return None;
    };
    match held {
        RecordCell::Jump { target } => Some(target),
        _ => None,
    }
}

/// Whether the 256 cells from the target on lie in the pool, and before the edge.
fn is_inside(geometry: &Geometry, log: &Log, target: u32) -> bool
    ensures { IsTrue result ↔ IsBeforeEdge geometry.now log.now.edge target }
{
    if target < geometry.pool_at() {
        return false;
    }
    let behind = u64::from(target) + u64::from(BLOCK_CELLS);
    if behind > u64::from(geometry.cells()) {
        return false;
    }
    behind <= u64::from(log.edge)
}

/// Whether they lie in the block part of one slot.
fn is_owned(volume: &KeptVolume, target: u32) -> bool
    requires met { KeepsBelow volume.now 10 }
    requires room { target + BLOCK_CELLS ≤ 2 ^ 31 }
    ensures { IsTrue result ↔ IsOwned volume.now.geometry (image_in volume.now) target }
{
    let Some(first) = volume.owner_of(target) else {
        return false;
    };
    let Some(last) = volume.owner_of(target + (BLOCK_CELLS - 1)) else {
        return false;
    };
    first == last
}
