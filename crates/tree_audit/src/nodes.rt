//! The nodes of the tree.
ghost use Rattle.std.specs.Prelude.{◌↔◌, IfOk, IsTrue};
ghost use Rattle.log_audit.specs.Kept.{image_of_kept};
ghost use Rattle.volume_meaning.specs.Nodes.{IsNode};
ghost use Rattle.tree_audit.specs.Nodes.{AddsRow, AreNodes, IsSomeNode};
ghost use Rattle.tree_audit.specs.Numbers.{AreAll};

use crate::child_cells::leads_of;
use crate::marks::last_marks;
use crate::rows::{root_row, row_under};
use cell_types::{Geometry, NoMemory, memory};
use log_audit::{KeptCells, numbers_of, place_of};
use std::alloc::Global;
use std::collections::BTreeSet;

/// A digest has 64 half bytes, so there is no level below this one.
pub(crate) const LAST_LEVEL: u8 = 63;

/// The nodes of the tree. Where cells were tampered with, one node may stand at several levels.
#[derive(Drop)]
pub struct TreeNodes {
    /// The first cell of each node, by rising numbers, whatever levels it has.
    pub nodes: Vec<u64>,
    /// Of each of them, whether it is one of the last level.
    pub on_last: Vec<bool>,
    /// Of each child cell of a node that leads to one, by rising numbers: `TARGET_STEP` times that one, plus the child cell.
    pub(crate) leads: Vec<u64>,
}

impl TreeNodes {
    /// Whether the node is one of the last level.
    pub(crate) fn is_last(&self, _kept: &KeptCells, _geometry: &Geometry, node: u32) -> bool
        requires { AreNodes _geometry.now (image_of_kept _kept.now) self.now }
        ensures { IsTrue result ↔ IsNode _geometry.now (image_of_kept _kept.now) LAST_LEVEL node }
    {
        let Some(place) = place_of(&self.nodes, u64::from(node)) else {
            return false;
        };
        self.on_last[place]
    }
}

/// The nodes of the tree, each once. Which of them the last level has is found level by level, over what each child cell
/// leads to.
///
/// # Errors
///
/// `NoMemory`.
pub fn nodes_of(alloc: Global, kept: &KeptCells, geometry: &Geometry) -> Result<TreeNodes, NoMemory>
    ensures { IfOk result (λ tree. AreNodes geometry.now (image_of_kept kept.now) tree) }
{
    let nodes = all_nodes(alloc, kept, geometry)?;
    let leads = leads_of(alloc, kept, geometry, &nodes)?;
    let on_last = last_marks(alloc, kept, geometry, &nodes, &leads)?;
    Ok(TreeNodes {
        nodes,
        on_last,
        leads,
    })
}

/// The nodes of all levels, each once. What a node leads to is the same at each of its levels, so it is asked at the first.
fn all_nodes(alloc: Global, kept: &KeptCells, geometry: &Geometry) -> Result<Vec<u64>, NoMemory>
    ensures { IfOk result (λ nodes. AreAll (IsSomeNode geometry.now (image_of_kept kept.now)) nodes.items) }
{
    let _cells = geometry.cells();
    let mut seen = BTreeSet::new(alloc);
    let root = root_row(alloc, kept, geometry)?;
    let mut row = unseen(alloc, &mut seen, &root)?;
    for _level in 0..LAST_LEVEL {
        let under = row_under(alloc, kept, geometry, &row)?;
        row = unseen(alloc, &mut seen, &under)?;
    }
    numbers_of(alloc, &seen)
}

/// The nodes of a row that were not seen before. From now on they were.
fn unseen(alloc: Global, seen: &mut BTreeSet<u64>, row: &[u64]) -> Result<Vec<u64>, NoMemory>
    ensures { IfOk result (λ fresh. AddsRow row.now seen.old seen.new fresh.items) }
{
    let mut fresh = Vec::new(alloc);
    for number in row {
        let is_new = memory::insert_new(seen, *number)?;
        if !is_new {
            continue;
        }
        memory::push(&mut fresh, *number)?;
    }
    Ok(fresh)
}
