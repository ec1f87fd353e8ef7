//! The walk along the path of an identifier.
ghost use Rattle.std.specs.Prelude.{◌≤◌};
ghost use Rattle.hash_tree.specs.Levels.{AreBounds};
ghost use Rattle.identifier_lookup.specs.Walks.{LooksUpSlot, WalksPath};

use crate::answers::Walk;
use crate::candidates::{Named, part_with_identifier};
use cell_types::{Fault, Volume};
use hash_tree::{Level, PathStep, next_candidate};
use volume_meaning::digest_of;
use worm_device::View;

/// The first slot on the path of the identifier's SHA-256 whose document has the identifier, or how the path ends.
/// Slots below the horizon are taken, and reserve cells up to the edge. Takes no memory.
///
/// # Errors
///
/// `Tampered` where a slot that a bucket on the path names is at or past the horizon or not done (rule 11, at the
/// bucket), where its cells are no state (rules 1 to 3) or its document is broken (rule 4), and where a cell of the
/// path is malformed or leads out of the pool or past the edge (rules 11 and 12); `Failed` where a read failed.
pub fn walk<V: View>(
    view: &mut V,
    volume: &Volume,
    horizon: u32,
    edge: u32,
    id: &[u8],
) -> Result<Walk, Fault>
    requires size { volume.now.geometry.cells ≤ (V.seen view.old).cells }
    requires horizon { horizon ≤ volume.now.geometry.slots }
    requires bounds { AreBounds volume.now.geometry edge }
    ensures { WalksPath volume.now.geometry horizon edge id.now (V.seen view.old) (V.seen view.new) result }
{
    let digest = digest_of(id);
    let mut level = Level::start(digest);
    loop {
        let step = next_candidate(view, volume, edge, &mut level)?;
        let named = match step {
            PathStep::Candidate { slot, bucket } => Named {
                bucket,
                slot,
                digest,
            },
            PathStep::End(place) => return Ok(Walk::End(place, level)),
            PathStep::PathFull => return Ok(Walk::PathFull),
        };
        let found = part_with_identifier(view, volume, horizon, &named, id)?;
        if let Some(part) = found {
            return Ok(Walk::Found(part));
        }
    }
}

/// The slot whose document has the identifier, `None` where no document that has a hash trail has it. The errors are
/// those of `walk`.
pub fn lookup<V: View>(
    view: &mut V,
    volume: &Volume,
    horizon: u32,
    edge: u32,
    id: &[u8],
) -> Result<Option<u32>, Fault>
    requires size { volume.now.geometry.cells ≤ (V.seen view.old).cells }
    requires horizon { horizon ≤ volume.now.geometry.slots }
    requires bounds { AreBounds volume.now.geometry edge }
    ensures { LooksUpSlot volume.now.geometry horizon edge id.now (V.seen view.old) (V.seen view.new) result }
{
    let found = walk(view, volume, horizon, edge, id)?;
    match found {
        Walk::Found(part) => Ok(Some(part.slot)),
        Walk::End(_place, _level) => Ok(None),
        Walk::PathFull => Ok(None),
    }
}
