//! A document, stored in a free slot with its index.
ghost use Rattle.std.specs.Prelude.{◌≡◌, ◌≤◌};
ghost use Rattle.volume_meaning.specs.Documents.{IsBody, IsIdentifier};
ghost use Rattle.ingest_engine.specs.Ingesting.{Ingests, RoomEnds, SlotsEnd, CheckStampEnds};

use crate::document::StoredDocument;
use crate::indexing::plan_for;
use cell_types::Refusal;
use plan_writer::{Plan, crashes_leave_whole_slots, put_planned};
use recovery_engine::{Ready, settle};
use std::alloc::Global;
use worm_device::Device;

/// Settles the volume, and stores the document in the slot at its horizon, with an index that leads to it, unless the
/// index leads to a document with the identifier already. Answers the slot, in which it is sure then, and which no
/// later write of anybody can hide. On a volume of stamped documents it has this stamp, in seconds. All memory is taken
/// before the first cell is written.
///
/// # Errors
///
/// `NoMemory`; `NotFormatted`, `NotAVolume` and `WrongSize` by cell 0; `StampNeeded` where documents are stamped and no
/// stamp is given, `StampUnused` where they are not and one is; `SlotsFull` where the last slot is taken, whatever
/// stands before it; `StampTooEarly` where the stamp is not past those of the done slots; `Duplicate` with the slot
/// that the identifier's path leads to; `PathFull` where each of the path's 64 buckets is another's; `TooManyTerms`
/// where the body gives a list more than 256 postings; `Full` where the document and its index need more cells than are
/// free; `Tampered` where a cell on the way breaks a rule, or one that is to be written is taken; `DeviceFault`.
pub fn ingest<D: Device>(
    alloc: Global,
    device: &mut D,
    id: &[u8],
    stamp: Option<u32>,
    body: &[u8],
) -> Result<u32, Refusal>
    requires identifier { IsIdentifier id.now }
    requires body { IsBody body.now }
    ensures { Ingests id.now stamp body.now (D.state device.old) (D.state device.new) result }
{
    crashes_leave_whole_slots();
    // Known of a number once it is read: it has 32 bits.
    let _seconds = stamp.unwrap_or(0);
    let document = StoredDocument::new(alloc, id, body)?;
    let ready = settle(device)?;
    check_stamp(&ready, stamp)?;
    check_slots(&ready)?;
    let index = plan_for(alloc, device, &ready, id, stamp, body)?;
    let need = document.cells.len() as u32 + index.journal.len() as u32 + index.block_length;
    check_room(&ready, need)?;
    let plan = Plan {
        start: ready.edge,
        block_length: index.block_length,
        document: &document.cells,
        journal: &index.journal,
        bytes: document.bytes,
        stamp,
    };
    let slot = put_planned(device, &ready, &plan)?;
    Ok(slot)
}

/// That a stamp is given exactly where documents are stamped.
fn check_stamp(ready: &Ready, stamp: Option<u32>) -> Result<(), Refusal>
    ensures { CheckStampEnds ready.now stamp result }
{
    let is_stamped = ready.volume.geometry.is_stamped();
    if is_stamped && stamp.is_none() {
        return Err(Refusal::StampNeeded);
    }
    if !is_stamped && stamp.is_some() {
        return Err(Refusal::StampUnused);
    }
    Ok(())
}

/// That a slot is free.
fn check_slots(ready: &Ready) -> Result<(), Refusal>
    requires { ready.now.horizon ≤ ready.now.volume.geometry.slots }
    ensures { SlotsEnd ready.now result }
{
    if ready.horizon == ready.volume.geometry.slots() {
        return Err(Refusal::SlotsFull);
    }
    Ok(())
}

/// That the pool has so many cells behind the edge.
fn check_room(ready: &Ready, need: u32) -> Result<(), Refusal>
    requires { ready.now.edge ≤ ready.now.volume.geometry.cells }
    ensures { RoomEnds ready.now need result }
{
    let geometry = &ready.volume.geometry;
    let free = geometry.cells() - ready.edge;
    if need > free {
        return Err(Refusal::Full { need, free });
    }
    Ok(())
}
