//! The index of a document, planned on a settled volume.
ghost use Rattle.std.specs.Prelude.{◌<◌, ◌≤◌};
ghost use Rattle.recovery_engine.specs.Settling.{LiesInBounds};
ghost use Rattle.ingest_engine.specs.Indexing.{SeeksPathEnd, PlansFor, WalksDevice};
ghost use Rattle.term_tags.specs.Listing.{MayHaveStamp};

use crate::stamps::check_later;
use cell_types::{Fault, Refusal};
use identifier_lookup::{Walk, walk};
use ingest_plan::{IndexPlace, PathEnd, PlannedIndex, plan_index};
use recovery_engine::Ready;
use std::alloc::Global;
use worm_device::{Device, Direct};

/// Plans the index of a document for the slot at the horizon of a volume that was settled. The device is only read.
///
/// # Errors
///
/// `StampTooEarly` where a stamp is given that is not past those of the done slots; `Duplicate` with the slot that the
/// path of the identifier leads to, `PathFull` where the path is full; `TooManyTerms`; `Tampered` where a cell on the
/// way is out of place; `DeviceFault`; `NoMemory`.
pub fn plan_for<D: Device>(
    alloc: Global,
    device: &mut D,
    ready: &Ready,
    id: &[u8],
    stamp: Option<u32>,
    body: &[u8],
) -> Result<PlannedIndex, Refusal>
    requires stamp { MayHaveStamp ready.now.volume.geometry stamp }
    requires bounds { LiesInBounds (D.state device.old) ready.now }
    requires free { ready.now.horizon < ready.now.volume.geometry.slots }
    ensures { PlansFor ready.now id.now stamp body.now (D.state device.old) (D.state device.new) result }
{
    check_later(device, ready, stamp)?;
    let end = path_end(device, ready, id)?;
    let place = IndexPlace {
        slot: ready.horizon,
        edge: ready.edge,
        end,
    };
    let index = plan_index(alloc, device, &ready.volume, &place, stamp, body)?;
    Ok(index)
}

/// Where the path of the identifier ends. A slot that it leads to has a document with the identifier.
fn path_end<D: Device>(device: &mut D, ready: &Ready, id: &[u8]) -> Result<PathEnd, Refusal>
    requires bounds { LiesInBounds (D.state device.old) ready.now }
    ensures { SeeksPathEnd ready.now id.now (D.state device.old) (D.state device.new) result }
{
    match walk_on_device(device, ready, id)? {
        Walk::Found(part) => Err(Refusal::Duplicate(part.slot)),
        Walk::End(place, level) => Ok(PathEnd { place, level }),
        Walk::PathFull => Err(Refusal::PathFull),
    }
}

/// The walk along the path of the identifier.
#[tactic(auto, using(crate::proofs::Walked::device_walks))]
fn walk_on_device<D: Device>(device: &mut D, ready: &Ready, id: &[u8]) -> Result<Walk, Fault>
    requires bounds { LiesInBounds (D.state device.old) ready.now }
    ensures { WalksDevice ready.now id.now (D.state device.old) (D.state device.new) result }
{
    walk(
        &mut Direct::new(device),
        &ready.volume,
        ready.horizon,
        ready.edge,
        id,
    )
}
