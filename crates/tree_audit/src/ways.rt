//! Child cells as ways between nodes, by the places of these in the row of all of them.
ghost use Rattle.std.specs.Prelude.{◌/◌, Contains, IfNone, IfOk, IfSome};
ghost use Rattle.std.specs.List.Sorted.{IsStrictlyIncreasing};
ghost use Rattle.tree_audit.specs.Ways.{AreWays, IsWayOf};

use crate::child_cells::TARGET_STEP;
use cell_types::{NoMemory, memory};
use log_audit::{lower_than, place_of};
use std::alloc::Global;
use volume_meaning::{NODE_BUCKETS, NODE_CELLS};

/// A child cell that leads to a node. Nodes meet where cells were tampered with, so it may be one of several of them, which
/// are next to one another.
#[derive(Clone, Copy)]
pub(crate) struct Way {
    /// The place of the first node that has the cell.
    pub(crate) first: usize,
    /// The place behind the last one.
    pub(crate) behind: usize,
    /// The place of the node to which it leads.
    pub(crate) target: usize,
}

/// The ways of the child cells with these numbers. One that leads to none of the nodes has none.
pub(crate) fn ways_of(alloc: Global, nodes: &[u64], leads: &[u64]) -> Result<Vec<Way>, NoMemory>
    requires { IsStrictlyIncreasing nodes.now }
    ensures { IfOk result (λ ways. AreWays nodes.now leads.now ways.items) }
{
    let mut ways = Vec::new(alloc);
    for lead in leads {
        let Some(way) = way_of(nodes, *lead) else {
            continue;
        };
        memory::push(&mut ways, way)?;
    }
    Ok(ways)
}

/// The way of the child cell with this number, if it leads to one of the nodes.
fn way_of(nodes: &[u64], lead: u64) -> Option<Way>
    requires { IsStrictlyIncreasing nodes.now }
    ensures some { IfSome result (λ way. IsWayOf nodes.now lead way) }
    ensures none { IfNone result (Contains nodes.now (lead / TARGET_STEP) → ⊥) }
{
    let target = place_of(nodes, lead / TARGET_STEP)?;
    let cell = lead % TARGET_STEP;
    // A node has the cells behind its buckets, up to its own end.
    let first = lower_than(nodes, (cell + 1).saturating_sub(u64::from(NODE_CELLS)));
    let behind = lower_than(nodes, (cell + 1).saturating_sub(u64::from(NODE_BUCKETS)));
    Some(Way {
        first,
        behind,
        target,
    })
}
