//! Rule 12: the child cells of nodes.
ghost use Rattle.std.specs.Prelude.{◌≡◌, ◌<◌, ◌≤◌, ◌+◌, ◌^◌, ◌↔◌, Some, IsTrue};
ghost use Rattle.cell_types.specs.Layout.{pool_at};
ghost use Rattle.tamper_rules.specs.Rules.{Children, Journals, ReserveCells};
ghost use Rattle.log_audit.specs.KeptVolumes.{FindsIn, FindsPartIn, KeepsRule, image_in};
ghost use Rattle.log_audit.specs.Kept.{image_of_kept};
ghost use Rattle.log_audit.specs.Findings.{IsMetAll};
ghost use Rattle.log_audit.specs.Stored.{IsStored};
ghost use Rattle.slot_audit.specs.Copying.{HasTarget};
ghost use Rattle.list_audit.specs.Blocks.{AreBlocksForTwo};
ghost use Rattle.tree_audit.specs.ChildCells.{HasChildInPool};
ghost use Rattle.tree_audit.specs.Children.{AsksChildren, HasCopyOf, IsClear, IsJournaled, IsWellLed, LeadsDownEach};
ghost use Rattle.tree_audit.specs.Nodes.{AreNodes, IsSomeNode};

use crate::child_cells::TARGET_STEP;
use crate::looks::child_at;
use crate::nodes::TreeNodes;
use crate::rows::cell_of;
use cell_types::{Cell, Evidence, Geometry};
use list_audit::{BLOCK_STEP, ListBlocks};
use log_audit::{KeptCells, KeptVolume, StoredSlot, has_between, lies_behind, lower_of};
use slot_audit::journal_place_of;
use tamper_rules::LOST_CHILD;
use volume_meaning::{BLOCK_CELLS, NODE_BUCKETS, NODE_CELLS};

/// The least child cell at which rule 12 is broken, among those of all nodes, where rules 1 and 5 are kept.
pub fn first_broken_child(
    volume: &KeptVolume,
    blocks: &ListBlocks,
    nodes: &TreeNodes,
) -> Option<Evidence>
    requires met { KeepsRule volume.now ReserveCells }
    requires journals { KeepsRule volume.now Journals }
    requires blocks { AreBlocksForTwo volume.now.geometry (image_in volume.now) blocks.now }
    requires nodes { AreNodes volume.now.geometry (image_in volume.now) nodes.now }
    ensures { FindsIn volume.now Children result }
{
    let _cells = volume.geometry.cells();
    let mut least = None;
    for number in &nodes.nodes {
        let node = cell_of(*number);
        // Nodes may meet where cells were tampered with, and no child cell behind the least is asked for.
        if lies_behind(&least, node) {
            continue;
        }
        let found = broken_under(volume, blocks, nodes, node);
        least = lower_of(least, found);
    }
    least
}

/// The first child cell of a node at which rule 12 is broken.
fn broken_under(
    volume: &KeptVolume,
    blocks: &ListBlocks,
    nodes: &TreeNodes,
    node: u32,
) -> Option<Evidence>
    requires met { KeepsRule volume.now ReserveCells }
    requires journals { KeepsRule volume.now Journals }
    requires blocks { AreBlocksForTwo volume.now.geometry (image_in volume.now) blocks.now }
    requires nodes { AreNodes volume.now.geometry (image_in volume.now) nodes.now }
    requires node { IsSomeNode volume.now.geometry (image_in volume.now) node }
    ensures { FindsPartIn volume.now Children
        (AsksChildren volume.now.geometry (image_in volume.now) node) result }
{
    let _cells = volume.geometry.cells();
    for x in 0..NODE_BUCKETS {
        let cell = node + NODE_BUCKETS + x;
        let Some(found) = volume.kept.at(cell) else {
            continue;
        };
        if leads_down_well(volume, blocks, nodes, node, x) {
            continue;
        }
        return Some(Evidence {
            rule: LOST_CHILD,
            cell,
            found,
        });
    }
    None
}

/// Whether child cell x of a node leads down well, whatever levels the node has: below the last one there is none.
fn leads_down_well(
    volume: &KeptVolume,
    blocks: &ListBlocks,
    nodes: &TreeNodes,
    node: u32,
    x: u32,
) -> bool
    requires met { KeepsRule volume.now ReserveCells }
    requires journals { KeepsRule volume.now Journals }
    requires blocks { AreBlocksForTwo volume.now.geometry (image_in volume.now) blocks.now }
    requires nodes { AreNodes volume.now.geometry (image_in volume.now) nodes.now }
    requires node { IsSomeNode volume.now.geometry (image_in volume.now) node }
    requires inside { node + NODE_BUCKETS + x < 2 ^ 31 }
    ensures { IsTrue result ↔ LeadsDownEach volume.now.geometry (image_in volume.now) node x }
{
    let cell = node + NODE_BUCKETS + x;
    let Some(target) = child_at(&volume.kept, &volume.geometry, cell) else {
        return false;
    };
    if nodes.is_last(&volume.kept, &volume.geometry, node) {
        return false;
    }
    if volume.kept.at(node + x).is_none() {
        return false;
    }
    is_well_led(volume, blocks, nodes, cell, target)
}

/// Whether the target of a child cell lies before the edge, is journaled with the cell and is clear, and the cell is
/// the first to it.
fn is_well_led(
    volume: &KeptVolume,
    blocks: &ListBlocks,
    nodes: &TreeNodes,
    cell: u32,
    target: u32,
) -> bool
    requires met { KeepsRule volume.now ReserveCells }
    requires journals { KeepsRule volume.now Journals }
    requires blocks { AreBlocksForTwo volume.now.geometry (image_in volume.now) blocks.now }
    requires nodes { AreNodes volume.now.geometry (image_in volume.now) nodes.now }
    requires inside { cell < 2 ^ 31 }
    requires leads { HasChildInPool volume.now.geometry (image_in volume.now) cell target }
    ensures { IsTrue result ↔ IsWellLed volume.now.geometry (image_in volume.now) cell target }
{
    let _cells = volume.geometry.cells();
    if volume.log.edge < target + NODE_CELLS {
        return false;
    }
    if !is_journaled(volume, cell, target) {
        return false;
    }
    let number = u64::from(target) * TARGET_STEP;
    if has_between(&nodes.leads, number, number + u64::from(cell)) {
        return false;
    }
    is_clear(&volume.kept, &volume.geometry, blocks, nodes, target)
}

/// Whether the slot in whose blocks the target lies has a copy of the child cell in its journal.
fn is_journaled(volume: &KeptVolume, cell: u32, target: u32) -> bool
    requires met { KeepsRule volume.now ReserveCells }
    requires journals { KeepsRule volume.now Journals }
    requires leads { HasChildInPool volume.now.geometry (image_in volume.now) cell target }
    ensures { IsTrue result ↔ IsJournaled volume.now.geometry (image_in volume.now) cell target }
{
    let Some(owner) = volume.owner_of(target) else {
        return false;
    };
    let Some(stored) = volume.stored_slot(owner) else {
        return false;
    };
    let Some(own) = volume.kept.at(cell) else {
        return false;
    };
    has_copy(&volume.kept, &volume.geometry, &stored, cell, own)
}

/// Whether the slot's journal holds the same as this cell, in which that stands.
fn has_copy(
    kept: &KeptCells,
    geometry: &Geometry,
    stored: &StoredSlot,
    cell: u32,
    own: Cell,
) -> bool
    requires stored { IsStored geometry.now (image_of_kept kept.now) stored.now }
    requires journals { IsMetAll geometry.now (image_of_kept kept.now) Journals }
    requires itself { HasTarget (image_of_kept kept.now) cell cell }
    requires stands { image_of_kept kept.now cell ≡ Some own }
    ensures { IsTrue result ↔ HasCopyOf (image_of_kept kept.now) stored.now cell }
{
    // A copy names the cell as its target, and of a journal's targets no two are one.
    let Some(place) = journal_place_of(kept, geometry, stored, cell) else {
        return false;
    };
    holds(kept, stored.journal_at() + place, own)
}

/// Whether this stands in the cell.
fn holds(kept: &KeptCells, at: u32, own: Cell) -> bool
    ensures { IsTrue result ↔ (image_of_kept kept.now at ≡ Some own) }
{
    let Some(found) = kept.at(at) else {
        return false;
    };
    found == own
}

/// Whether the 32 cells from the target on meet no block and no other node.
fn is_clear(
    kept: &KeptCells,
    geometry: &Geometry,
    blocks: &ListBlocks,
    nodes: &TreeNodes,
    target: u32,
) -> bool
    requires blocks { AreBlocksForTwo geometry.now (image_of_kept kept.now) blocks.now }
    requires nodes { AreNodes geometry.now (image_of_kept kept.now) nodes.now }
    requires from { pool_at geometry.now ≤ target }
    ensures { IsTrue result ↔ IsClear geometry.now (image_of_kept kept.now) target }
{
    let _cells = geometry.cells();
    let at = u64::from(target);
    let behind = at + u64::from(NODE_CELLS);
    // What begins before the target reaches into it where it begins less than its own length before.
    let first = at + 1 - u64::from(BLOCK_CELLS);
    if has_between(&blocks.numbers, first * BLOCK_STEP, behind * BLOCK_STEP) {
        return false;
    }
    if has_between(&nodes.nodes, at + 1 - u64::from(NODE_CELLS), at) {
        return false;
    }
    if has_between(&nodes.nodes, at + 1, behind) {
        return false;
    }
    true
}
