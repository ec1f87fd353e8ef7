//! Which nodes the last level has. The levels are marks in the row of all nodes, so that each level costs a look at each
//! child cell, whatever its nodes are, and nothing is sorted.
ghost use Rattle.std.specs.Prelude.{IfOk, length};
ghost use Rattle.log_audit.specs.Kept.{image_of_kept};
ghost use Rattle.tree_audit.specs.ChildCells.{IsLeadAmong};
ghost use Rattle.tree_audit.specs.Marks.{AreAmong, AreBehindLast, AreMarked, AreMarkedUnder};
ghost use Rattle.tree_audit.specs.Nodes.{IsSomeNode};
ghost use Rattle.tree_audit.specs.Numbers.{AreAll};

use crate::nodes::LAST_LEVEL;
use crate::ways::{Way, ways_of};
use cell_types::{Geometry, NoMemory, memory};
use log_audit::KeptCells;
use std::alloc::Global;

/// Of each node, whether it is one of the last level.
pub(crate) fn last_marks(
    alloc: Global,
    _kept: &KeptCells,
    geometry: &Geometry,
    nodes: &[u64],
    leads: &[u64],
) -> Result<Vec<bool>, NoMemory>
    requires nodes { AreAll (IsSomeNode geometry.now (image_of_kept _kept.now)) nodes.now }
    requires leads { AreAll (IsLeadAmong geometry.now (image_of_kept _kept.now) nodes.now (length nodes.now)) leads.now }
    ensures { IfOk result (λ marks. AreMarked geometry.now (image_of_kept _kept.now) LAST_LEVEL nodes.now marks.items) }
{
    let _cells = geometry.cells();
    let ways = ways_of(alloc, nodes, leads)?;
    let mut marks = root_marks(alloc, _kept, geometry, nodes)?;
    for _level in 0..LAST_LEVEL {
        marks = marks_under(alloc, &ways, &marks)?;
    }
    Ok(marks)
}

/// Of each node, whether it is the root.
fn root_marks(
    alloc: Global,
    _kept: &KeptCells,
    geometry: &Geometry,
    nodes: &[u64],
) -> Result<Vec<bool>, NoMemory>
    ensures { IfOk result (λ marks. AreMarked geometry.now (image_of_kept _kept.now) 0 nodes.now marks.items) }
{
    let root = u64::from(geometry.root_at());
    let mut marks = Vec::new(alloc);
    for node in nodes {
        memory::push(&mut marks, *node == root)?;
    }
    Ok(marks)
}

/// The marks of the nodes to which these ways lead from marked ones.
fn marks_under(alloc: Global, ways: &[Way], marks: &[bool]) -> Result<Vec<bool>, NoMemory>
    requires { AreAmong ways.now (length marks.now) }
    ensures { IfOk result (λ under. AreMarkedUnder ways.now marks.now under.items) }
{
    let behind = behind_marked(alloc, marks)?;
    let mut under = memory::repeated(alloc, false, marks.len())?;
    for way in ways {
        // A node that the way begins at is marked where the last marked one before its end is none before its beginning.
        if behind[way.behind] <= way.first {
            continue;
        }
        under[way.target] = true;
    }
    Ok(under)
}

/// For so many places as there are from none to all: the place behind the last of them that is marked, or 0.
fn behind_marked(alloc: Global, marks: &[bool]) -> Result<Vec<usize>, NoMemory>
    ensures { IfOk result (λ behind. AreBehindLast marks.now behind.items) }
{
    let mut behind = memory::with_capacity(alloc, marks.len() + 1)?;
    let mut last = 0;
    memory::push(&mut behind, last)?;
    for (place, is_marked) in marks.iter().enumerate() {
        if *is_marked {
            last = place + 1;
        }
        memory::push(&mut behind, last)?;
    }
    Ok(behind)
}
