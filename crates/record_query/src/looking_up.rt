//! A document, by its identifier.
ghost use Rattle.std.specs.Prelude.{◌≡◌, ◌≤◌, IsTrue};
ghost use Rattle.document_store.specs.Looks.{HasPart, HoldsSome};
ghost use Rattle.hash_tree.specs.Levels.{AreBounds};
ghost use Rattle.record_query.specs.LookingUp.{Locates, LooksUp, refusal_of_body};
ghost use Rattle.record_query.specs.Reaching.{PutsFromDevice, WalksOnDevice};
ghost use Rattle.worm_device.specs.Views.{seen_directly};

use crate::found::Found;
use cell_types::{Fault, Geometry, Refusal};
use document_store::{BodyFault, Part, put_part};
use host_ports::Sink;
use identifier_lookup::{Walk, walk};
use recovery_engine::{Ready, settle};
use worm_device::{Device, Direct};

/// Settles the volume, and puts the body of the first document on the identifier's path that has it into the sink. The
/// whole document is checked before the first byte goes out. Takes no memory.
///
/// # Errors
///
/// `NotFormatted`, `NotAVolume` and `WrongSize` by cell 0; `Tampered` where a cell breaks a rule of the log (1, 2, 3, 5
/// and 6) or of the path (11 and 12), or a document that was read is broken (4); `Absent` where the path ends and no
/// document on it has the identifier; `DeviceFault`, `SinkFault`.
pub fn lookup_into<D: Device, K: Sink>(
    device: &mut D,
    id: &[u8],
    sink: &mut K,
) -> Result<Found, Refusal>
    ensures { LooksUp id.now (D.state device.old) (D.state device.new) (K.state sink.old) (K.state sink.new) result }
{
    let ready = settle(device)?;
    let walked = walk_device(device, &ready, id)?;
    let part = match walked {
        Walk::Found(part) => part,
        Walk::End(_place, _level) => return Err(Refusal::Absent),
        Walk::PathFull => return Err(Refusal::Absent),
    };
    match put_body(device, &ready.volume.geometry, &part, sink) {
        Ok(bytes) => Ok(Found {
            slot: part.slot,
            bytes,
        }),
        Err(fault) => Err(refusal_of_body(fault)),
    }
}

/// The slot of the document that `lookup_into` gives. The walk reads the document whole, and nothing is put out. The errors
/// are those of `lookup_into`, but for `SinkFault`.
pub fn locate<D: Device>(device: &mut D, id: &[u8]) -> Result<u32, Refusal>
    ensures { Locates id.now (D.state device.old) (D.state device.new) result }
{
    let ready = settle(device)?;
    let walked = walk_device(device, &ready, id)?;
    match walked {
        Walk::Found(part) => Ok(part.slot),
        Walk::End(_place, _level) => Err(Refusal::Absent),
        Walk::PathFull => Err(Refusal::Absent),
    }
}

/// The walk along the identifier's path on the device.
#[tactic(auto, using(crate::proofs::WalkedOn::device_walks))]
fn walk_device<D: Device>(device: &mut D, ready: &Ready, id: &[u8]) -> Result<Walk, Fault>
    requires size { ready.now.volume.geometry.cells ≤ (D.state device.old).cells }
    requires horizon { ready.now.horizon ≤ ready.now.volume.geometry.slots }
    requires bounds { AreBounds ready.now.volume.geometry ready.now.edge }
    ensures { WalksOnDevice ready.now id.now (D.state device.old) (D.state device.new) result }
{
    walk(
        &mut Direct::new(device),
        &ready.volume,
        ready.horizon,
        ready.edge,
        id,
    )
}

/// Puts the body of the document of a part of the device into the sink. The walk has read the document whole.
fn put_body<D: Device, K: Sink>(
    device: &mut D,
    geometry: &Geometry,
    part: &Part,
    sink: &mut K,
) -> Result<u32, BodyFault>
    requires size { geometry.now.cells ≤ (D.state device.old).cells }
    requires part { HasPart geometry.now (seen_directly (D.state device.old) 0) part.now }
    requires whole { IsTrue (D.state device.old).tells
        → HoldsSome geometry.now (D.state device.old).image part.now.slot }
    ensures { PutsFromDevice geometry.now part.now (D.state device.old) (D.state device.new) (K.state sink.old)
        (K.state sink.new) result }
{
    put_part(&mut Direct::new(device), geometry, part, sink)
}

/// A fault of putting a body, as a command refuses.
fn refusal_of_body(fault: BodyFault) -> Refusal
    ensures { result ≡ refusal_of_body fault }
{
    match fault {
        BodyFault::Tampered(evidence) => Refusal::Tampered(evidence),
        BodyFault::ReadFault => Refusal::DeviceFault,
        BodyFault::SinkFault => Refusal::SinkFault,
    }
}
