//! The nodes of one level, by rising numbers, and those of the next.
ghost use Rattle.std.specs.Prelude.{◌≡◌, ◌<◌, ◌≤◌, ◌+◌, ◌^◌, ℕ, IfOk, OnOk, Contains};
ghost use Rattle.log_audit.specs.Kept.{image_of_kept};
ghost use Rattle.tree_audit.specs.ChildCells.{IsLastPlace};
ghost use Rattle.tree_audit.specs.Nodes.{AddsChildTargets, AreNodesInside, AreOnLevel, AreUnder, IsTarget};

use crate::looks::child_at;
use cell_types::{Geometry, NoMemory, memory};
use log_audit::{KeptCells, sort_once};
use std::alloc::Global;
use volume_meaning::{NODE_BUCKETS, NODE_CELLS};

/// The root alone.
pub(crate) fn root_row(
    alloc: Global,
    _kept: &KeptCells,
    geometry: &Geometry,
) -> Result<Vec<u64>, NoMemory>
    ensures { IfOk result (λ row. AreOnLevel geometry.now (image_of_kept _kept.now) 0 row.items) }
{
    let mut row = Vec::new(alloc);
    memory::push(&mut row, u64::from(geometry.root_at()))?;
    Ok(row)
}

/// The nodes to which the child cells of these lead, each once, by rising numbers.
pub(crate) fn row_under(
    alloc: Global,
    kept: &KeptCells,
    geometry: &Geometry,
    row: &[u64],
) -> Result<Vec<u64>, NoMemory>
    requires { AreNodesInside geometry.now row.now }
    ensures { IfOk result (λ under. AreUnder geometry.now (image_of_kept kept.now) row.now under.items) }
{
    let _cells = geometry.cells();
    let mut under = Vec::new(alloc);
    let mut last: Option<u32> = None;
    for number in row {
        let node = cell_of(*number);
        let first = first_place_behind(node, last);
        push_targets(kept, geometry, node, first, &mut under)?;
        last = Some(node);
    }
    // Two child cells may lead to one node.
    sort_once(&mut under);
    Ok(under)
}

/// The first place of a child cell of a node that is none of the last node's. Nodes may meet where cells were tampered
/// with, and a child cell of two of them is followed once.
pub(crate) fn first_place_behind(node: u32, last: Option<u32>) -> u32
    ensures from { NODE_BUCKETS ≤ result }
    ensures to { result ≤ NODE_CELLS }
    ensures passed { (place : ℕ) → NODE_BUCKETS ≤ place → place < result → IsLastPlace last (node + place) }
{
    let Some(before) = last else {
        return NODE_BUCKETS;
    };
    if node <= before {
        return NODE_BUCKETS;
    }
    let step = node - before;
    if step >= NODE_BUCKETS {
        return NODE_BUCKETS;
    }
    NODE_CELLS - step
}

/// Adds the node to which each child cell of this one from this place on leads, where the others were added.
fn push_targets(
    kept: &KeptCells,
    geometry: &Geometry,
    node: u32,
    first: u32,
    targets: &mut Vec<u64>,
) -> Result<(), NoMemory>
    requires inside { node + NODE_CELLS < 2 ^ 32 }
    requires from { NODE_BUCKETS ≤ first }
    requires to { first ≤ NODE_CELLS }
    requires added { (target : ℕ) → IsTarget geometry.now (image_of_kept kept.now) node first target
        → Contains targets.old.items target }
    ensures { OnOk result (AddsChildTargets geometry.now (image_of_kept kept.now) node NODE_CELLS
        targets.old.items targets.new.items) }
{
    for place in first..NODE_CELLS {
        let Some(target) = child_at(kept, geometry, node + place) else {
            continue;
        };
        memory::push(targets, u64::from(target))?;
    }
    Ok(())
}

/// The cell with this number.
pub(crate) fn cell_of(number: u64) -> u32
    requires { number < 2 ^ 32 }
    ensures { result ≡ number }
{
    number as u32
}
