//! A document of a slot, read into memory.
ghost use Rattle.std.specs.Prelude.{◌≤◌};
ghost use Rattle.document_store.specs.Looks.{HasPart};
ghost use Rattle.worm_device.specs.Views.{Viewed, seen_directly};
ghost use Rattle.volume_copy.specs.Reading.{CopyReadEnds, ReadsStored, StampReadEnds};

use cell_types::{Refusal, Volume};
use commit_record::stamp_of;
use document_store::{BodyFault, Part, Text, identifier_of_head, name_commit, take_part};
use host_ports::Gathered;
use std::alloc::Global;
use volume_meaning::MAX_BODY_BYTES;
use worm_device::{Device, Direct, View};

/// A document that was read.
#[derive(Drop)]
pub struct StoredCopy {
    /// Its identifier, 1 to 200 bytes.
    pub identifier: Text,
    /// Its body, 0 to 1,048,576 bytes.
    pub body: Gathered,
    /// Its stamp, in seconds, on a volume of stamped documents.
    pub stamp: Option<u32>,
}

/// Reads the document of a part, each of its cells once, and the stamp of its slot.
pub fn read_stored<D: Device>(
    alloc: Global,
    device: &mut D,
    volume: &Volume,
    part: &Part,
) -> Result<StoredCopy, Refusal>
    requires size { volume.now.geometry.cells ≤ (D.state device.old).cells }
    requires part { HasPart volume.now.geometry (seen_directly (D.state device.old) 0) part.now }
    ensures { ReadsStored volume.now.geometry part.now.slot (D.state device.old) (D.state device.new) result }
{
    read_in(alloc, &mut Direct::new(device), volume, part)
}

/// The same over a view.
fn read_in<V: View>(
    alloc: Global,
    view: &mut V,
    volume: &Volume,
    part: &Part,
) -> Result<StoredCopy, Refusal>
    requires size { volume.now.geometry.cells ≤ (V.seen view.old).cells }
    requires part { HasPart volume.now.geometry (V.seen view.old) part.now }
    ensures viewed { Viewed (V.seen view.old) (V.seen view.new) }
    ensures ends { CopyReadEnds volume.now.geometry part.now.slot (V.seen view.old) (V.seen view.new) result }
{
    let mut body = Gathered::with_room(alloc, MAX_BODY_BYTES)?;
    let head = match take_part(view, &volume.geometry, part, &mut body) {
        Ok(head) => head,
        Err(BodyFault::Tampered(evidence)) => return Err(Refusal::Tampered(evidence)),
        Err(BodyFault::ReadFault) => return Err(Refusal::DeviceFault),
        Err(BodyFault::SinkFault) => {
            let Some(lack) = body.lack() else {
                unreachable!()
            };
            return Err(Refusal::from(lack));
        }
    };
    let identifier = identifier_of_head(alloc, &head)?;
    let stamp = stamp_for(view, volume, part)?;
    Ok(StoredCopy {
        identifier,
        body,
        stamp,
    })
}

/// Reads the stamp of a part's slot, `None` on a volume whose documents are not stamped.
fn stamp_for<V: View>(view: &mut V, volume: &Volume, part: &Part) -> Result<Option<u32>, Refusal>
    requires size { volume.now.geometry.cells ≤ (V.seen view.old).cells }
    requires part { HasPart volume.now.geometry (V.seen view.old) part.now }
    ensures viewed { Viewed (V.seen view.old) (V.seen view.new) }
    ensures ends { StampReadEnds volume.now.geometry part.now.slot (V.seen view.old) (V.seen view.new) result }
{
    if !volume.geometry.is_stamped() {
        return Ok(None);
    }
    let Ok(found) = stamp_of(view, volume, part.slot) else {
        return Err(Refusal::DeviceFault);
    };
    let Some(seconds) = found else {
        // A view that tells what it shows has the stamp with which the slot was done.
        return Err(Refusal::from(name_commit(&volume.geometry, part)));
    };
    Ok(Some(seconds))
}
