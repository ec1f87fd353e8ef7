//! The path of a digest.
ghost use Rattle.std.specs.Prelude.{◌≤◌};
ghost use Rattle.hash_tree.specs.Levels.{AreBounds, IsLevelPlaced};
ghost use Rattle.hash_tree.specs.Steps.{Steps};

use crate::level::Level;
use crate::looks::Here;
use crate::node_cells::look_here;
use cell_types::{Fault, Volume};
use worm_device::View;

/// Where the next entry goes: into a blank bucket, or into a new node under a blank child cell.
#[derive(Clone, Copy, Debug, PartialEq, Eq)]
pub struct Open {
    /// The number of the node's bucket on the path.
    pub bucket: u32,
    /// The number of the blank child cell under it, `None` where the bucket is blank.
    pub child: Option<u32>,
}

/// What comes next on a path.
#[derive(Clone, Copy, Debug, PartialEq, Eq)]
pub enum PathStep {
    /// A bucket with the digest's fingerprint: the slot that it names, and its cell.
    Candidate { slot: u32, bucket: u32 },
    /// No candidate is left, and the path ends at a blank cell.
    End(Open),
    /// No candidate is left, and all 64 buckets of the path are written.
    PathFull,
}

/// The next candidate from a level on, or how the path ends. The level goes down to where the answer was found, and
/// the next call goes on from there. Slots reserve cells up to the edge.
///
/// A cell on the path that is malformed, or that leads out of the pool or past the edge, is evidence; a read that
/// failed is a fault. At most two reads a level.
pub fn next_candidate<V: View>(
    view: &mut V,
    volume: &Volume,
    edge: u32,
    level: &mut Level,
) -> Result<PathStep, Fault>
    requires size { volume.now.geometry.cells ≤ (V.seen view.old).cells }
    requires bounds { AreBounds volume.now.geometry edge }
    requires level { IsLevelPlaced volume.now.geometry edge (V.seen view.old) level.old }
    ensures { Steps volume.now.geometry edge (V.seen view.old) (V.seen view.new) level.old level.new result }
{
    loop {
        let here = look_here(view, volume, edge, level)?;
        match here {
            Here::Fits { slot, bucket } => {
                level.answered = true;
                return Ok(PathStep::Candidate { slot, bucket });
            }
            Here::Ends(place) => return Ok(PathStep::End(place)),
            Here::Last => return Ok(PathStep::PathFull),
            Here::Leads(child) => {
                level.number += 1;
                level.answered = false;
                level.led_by = Some(child);
            }
        }
    }
}
