//! Which child cells lead to which nodes.
ghost use Rattle.std.specs.Prelude.{◌<◌, ◌≤◌, ◌+◌, ◌^◌, ℕ, length, Contains, IfOk, OnOk};
ghost use Rattle.log_audit.specs.Kept.{image_of_kept};
ghost use Rattle.tree_audit.specs.ChildCells.{IsLeadAmong, IsLeadOf};
ghost use Rattle.tree_audit.specs.Nodes.{IsSomeNode};
ghost use Rattle.tree_audit.specs.Numbers.{AddsNumbers, AreAll};

use crate::looks::child_at;
use crate::rows::{cell_of, first_place_behind};
use cell_types::{Geometry, NoMemory, memory};
use log_audit::{KeptCells, sort_once};
use std::alloc::Global;
use volume_meaning::{NODE_BUCKETS, NODE_CELLS};

/// How far the numbers of the child cells that lead to one node lie from those that lead to the next cell.
pub(crate) const TARGET_STEP: u64 = 4_294_967_296;

/// The numbers of the child cells of all nodes.
pub(crate) fn leads_of(
    alloc: Global,
    kept: &KeptCells,
    geometry: &Geometry,
    nodes: &[u64],
) -> Result<Vec<u64>, NoMemory>
    requires { AreAll (IsSomeNode geometry.now (image_of_kept kept.now)) nodes.now }
    ensures { IfOk result (λ leads. AreAll
        (IsLeadAmong geometry.now (image_of_kept kept.now) nodes.now (length nodes.now)) leads.items) }
{
    let _cells = geometry.cells();
    let mut leads = Vec::new(alloc);
    let mut last: Option<u32> = None;
    for number in nodes {
        let node = cell_of(*number);
        let first = first_place_behind(node, last);
        push_leads(kept, geometry, node, first, &mut leads)?;
        last = Some(node);
    }
    sort_once(&mut leads);
    Ok(leads)
}

/// Adds the numbers of the child cells of a node from this place on, where the others were added.
fn push_leads(
    kept: &KeptCells,
    geometry: &Geometry,
    node: u32,
    first: u32,
    leads: &mut Vec<u64>,
) -> Result<(), NoMemory>
    requires inside { node + NODE_CELLS < 2 ^ 32 }
    requires from { NODE_BUCKETS ≤ first }
    requires to { first ≤ NODE_CELLS }
    requires added { (x : ℕ) → IsLeadOf geometry.now (image_of_kept kept.now) node first x
        → Contains leads.old.items x }
    ensures { OnOk result (AddsNumbers (IsLeadOf geometry.now (image_of_kept kept.now) node NODE_CELLS)
        leads.old.items leads.new.items) }
{
    for place in first..NODE_CELLS {
        let cell = node + place;
        let Some(target) = child_at(kept, geometry, cell) else {
            continue;
        };
        memory::push(leads, u64::from(target) * TARGET_STEP + u64::from(cell))?;
    }
    Ok(())
}
