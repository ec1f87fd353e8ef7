//! The tree of identifiers.
ghost use Rattle.std.specs.Prelude.{◌≤◌};
ghost use Rattle.hash_tree.specs.Levels.{AreBounds, IsLevelPlaced};
ghost use Rattle.hash_tree.specs.Steps.{Steps};
ghost use Rattle.identifier_lookup.specs.Walks.{LooksUpSlot, WalksPath};

use cell_types::{Fault, Volume};
use hash_tree::{Level, PathStep, next_candidate};
use identifier_lookup::{Walk, lookup, walk};
use worm_device::View;

/// `next_candidate`.
pub fn next_candidate_again<V: View>(
    view: &mut V,
    volume: &Volume,
    edge: u32,
    level: &mut Level,
) -> Result<PathStep, Fault>
    requires size { volume.now.geometry.cells ≤ (V.seen view.old).cells }
    requires bounds { AreBounds volume.now.geometry edge }
    requires level { IsLevelPlaced volume.now.geometry edge (V.seen view.old) level.old }
    ensures { Steps volume.now.geometry edge (V.seen view.old) (V.seen view.new) level.old level.new result }
{
    next_candidate(view, volume, edge, level)
}

/// `walk`.
pub fn walk_again<V: View>(
    view: &mut V,
    volume: &Volume,
    horizon: u32,
    edge: u32,
    id: &[u8],
) -> Result<Walk, Fault>
    requires size { volume.now.geometry.cells ≤ (V.seen view.old).cells }
    requires horizon { horizon ≤ volume.now.geometry.slots }
    requires bounds { AreBounds volume.now.geometry edge }
    ensures { WalksPath volume.now.geometry horizon edge id.now (V.seen view.old) (V.seen view.new) result }
{
    walk(view, volume, horizon, edge, id)
}

/// `lookup`.
pub fn lookup_again<V: View>(
    view: &mut V,
    volume: &Volume,
    horizon: u32,
    edge: u32,
    id: &[u8],
) -> Result<Option<u32>, Fault>
    requires size { volume.now.geometry.cells ≤ (V.seen view.old).cells }
    requires horizon { horizon ≤ volume.now.geometry.slots }
    requires bounds { AreBounds volume.now.geometry edge }
    ensures { LooksUpSlot volume.now.geometry horizon edge id.now (V.seen view.old) (V.seen view.new) result }
{
    lookup(view, volume, horizon, edge, id)
}
