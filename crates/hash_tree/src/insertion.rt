//! Plans the entry of a slot in the hash tree of identifiers, where the path of its digest ends: its bucket, in the
//! level's node or in a new one.
//!
//! Nothing is written: cells are planned over what a view shows, each for the node that it lies in. On a volume of 8
//! slots and 2 lists the root is at cell 548 and the pool begins at 580. Slot 0 has `b` (digest 3e 23 ..) and the cells
//! up to 581, and then slot 1 is to have `e` (digest 3f 79 ..):
//!
//!     548 .. 563   buckets of the root        551  slot 0, 3e 23 e8 16 00 39 59     stands
//!     564 .. 579   child cells of the root    567  leads to 582                     is planned
//!     582 .. 597   buckets of a new node      597  slot 1, 3f 79 bb 7b 43 5b 05     is planned
//!     598 .. 613   its child cells            613  blank: `e` would lead on here
//!
//! Both digests begin with the half byte 3. So the path of `e` ends under the bucket of `b`, at the blank child cell
//! 567: the pool grants a node, from 582 to 613, the child cell leads there, and `e` has the bucket of its next half
//! byte, 15. Where the path ends at a blank bucket, as that of `b` did, this bucket alone is planned. So an entry costs
//! one cell of the journal, or two and 32 of the pool.
//!
//! **The entry is found.** In whatever image has all that is planned, and in which the path down to the place was
//! passed, the slot has a hash trail.
//!
//! **The tree keeps its shape.** Where it had it, it has it with the entry; what is new in it are this bucket, and this
//! child cell and this node.
//!
//! **A node that is another's.** Somebody may have led a child cell into the cells of a list. Then the place may be
//! planned for the list already: the child cell that led to the node is evidence, with rule 12 (`taken_is_broken`).
//! Where the tree has its shape this does not happen.
//!
//! It reads nothing. `specs/Inserting.antt` says what an insertion does.
ghost use Rattle.std.specs.Prelude.{◌≡◌, ◌<◌, ◌≤◌, IsSome};
ghost use Rattle.cell_pool.specs.Grants.{free_cells};
ghost use Rattle.cell_types.specs.declared.geometry.TheConstants.{MAX_SLOTS};
ghost use Rattle.volume_meaning.specs.declared.nodes.TheConstants.{NODE_CELLS};
ghost use Rattle.cell_pool.specs.declared.planning.PlanFault.TheVariants as plan;
ghost use Rattle.worm_device.specs.Overlays.{of_overlay};
ghost use Rattle.hash_tree.specs.Inserting.{InsertsEntry};
ghost use Rattle.hash_tree.specs.Naming.{BlamesChild};
ghost use Rattle.hash_tree.specs.Readiness.{IsReadyPlace};

use crate::level::{ChildCell, Level};
use crate::path::Open;
use cell_pool::{GrowthFault, PlanFault, Pool, plan_record};
use cell_types::{RecordCell, Volume, breach};
use tamper_rules::LOST_CHILD;
use volume_meaning::{NODE_CELLS, fingerprint_of, nibble_of};
use worm_device::{Overlay, Owner, View};

/// Plans the entry of a slot where the path of the level's digest ends, and answers its bucket's cell. Under a child
/// cell it takes a node of 32 cells from the pool.
///
/// Where the place is planned for somebody else, the child cell that led to the level's node is evidence, and nothing
/// has changed. Without memory what is planned is to be given up, and the pool has not changed.
pub fn insert<V: View>(
    overlay: &mut Overlay<'_, V>,
    pool: &mut Pool,
    volume: &Volume,
    place: Open,
    level: &Level,
    slot: u32,
) -> Result<u32, GrowthFault>
    requires slot { slot < MAX_SLOTS }
    requires room { NODE_CELLS ≤ free_cells pool.old }
    requires ready { IsReadyPlace volume.now.geometry level.now place pool.old.next (of_overlay V.seen overlay.old) }
    ensures { InsertsEntry volume.now.geometry level.now place slot pool.old pool.new
        (of_overlay V.seen overlay.old) (of_overlay V.seen overlay.new) result }
{
    let root = volume.geometry.root_at();
    let owner = Owner {
        head: root,
        base: level.node(&volume.geometry),
    };
    let entry = RecordCell::Bucket {
        slot,
        fingerprint: fingerprint_of(&level.digest),
    };
    // Known of a half byte once it is asked for: it is below 16.
    let _half = nibble_of(&level.digest, level.number);
    let Some(child) = place.child else {
        return match plan_record(overlay, place.bucket, entry, owner) {
            Ok(()) => Ok(place.bucket),
            Err(fault) => Err(refusal(fault, &level.led_by)),
        };
    };
    // Known of a cell's number once it is read: it has 32 bits.
    let _end = pool.end;
    let node = pool.next();
    if let Err(fault) = plan_record(overlay, child, RecordCell::Child { target: node }, owner) {
        return Err(refusal(fault, &level.led_by));
    }
    let bucket = node + u32::from(nibble_of(&level.digest, level.number + 1));
    let below = Owner {
        head: root,
        base: node,
    };
    match plan_record(overlay, bucket, entry, below) {
        Ok(()) => {}
        Err(PlanFault::NoMemory(lack)) => return Err(GrowthFault::NoMemory(lack)),
        // Nothing is planned in the cells that are free.
        Err(PlanFault::Taken) => unreachable!(),
    }
    // There is room for a node.
    let Some(_node) = pool.grant(NODE_CELLS) else {
        unreachable!()
    };
    Ok(bucket)
}

/// Why the first cell of an entry was not planned: where it is taken, its node is not the root.
fn refusal(fault: PlanFault, led_by: &Option<ChildCell>) -> GrowthFault
    requires led { fault ≡ plan.Taken → IsSome led_by.now }
    ensures { BlamesChild led_by.now fault result }
{
    match fault {
        PlanFault::NoMemory(lack) => GrowthFault::NoMemory(lack),
        PlanFault::Taken => {
            let Some(child) = led_by else { unreachable!() };
            GrowthFault::Fault(breach(LOST_CHILD, child.cell, child.found))
        }
    }
}
