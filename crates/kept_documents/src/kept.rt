//! Whether a document is kept.
ghost use Rattle.std.specs.Prelude.{◌≡◌, ◌<◌};
ghost use Rattle.document_store.specs.Looks.{HasPart};
ghost use Rattle.kept_documents.specs.Kept.{AsksDocument, AsksDocumentIn, AsksKept, IsRefused};

use crate::fault::AskFault;
use crate::indexed::is_indexed;
use cell_types::{Fault, Volume};
use commit_record::{OpenRefusal, open};
use document_store::{BodyFault, Part, slot_part, take_part};
use host_ports::Gathered;
use std::alloc::Global;
use volume_meaning::MAX_BODY_BYTES;
use worm_device::View;

/// A document that is kept, as it was read.
#[derive(Drop)]
pub struct KeptDocument {
    /// What cell 0 states.
    pub volume: Volume,
    /// Where it lies.
    pub part: Part,
    pub body: Gathered,
    /// How many bytes the body has.
    pub bytes: u32,
}

/// How many bytes the body of the document has that is kept in this slot with this identifier, `None` where none is, or
/// where cell 0 states no volume of the view's size. Each slot and each identifier may be asked for.
///
/// # Errors
///
/// `ReadFault` where a read failed, and `NoMemory`.
pub fn is_kept<V: View>(
    alloc: Global,
    view: &mut V,
    slot: u32,
    id: &[u8],
) -> Result<Option<u32>, AskFault>
    requires { 0 < (V.seen view.old).cells }
    ensures { AsksKept slot id.now (V.seen view.old) (V.seen view.new) result }
{
    match kept_document(alloc, view, slot, id) {
        Ok(Some(document)) => Ok(Some(document.bytes)),
        Ok(None) => Ok(None),
        Err(why) => Err(why),
    }
}

/// The document itself, of which each cell is read once at most. The errors are those of `is_kept`.
pub fn kept_document<V: View>(
    alloc: Global,
    view: &mut V,
    slot: u32,
    id: &[u8],
) -> Result<Option<KeptDocument>, AskFault>
    requires { 0 < (V.seen view.old).cells }
    ensures { AsksDocument slot id.now (V.seen view.old) (V.seen view.new) result }
{
    match open(view) {
        Ok(volume) => kept_in(alloc, view, volume, slot, id),
        Err(OpenRefusal::ReadFault) => Err(AskFault::ReadFault),
        Err(_) => Ok(None),
    }
}

/// The same of a volume.
fn kept_in<V: View>(
    alloc: Global,
    view: &mut V,
    volume: Volume,
    slot: u32,
    id: &[u8],
) -> Result<Option<KeptDocument>, AskFault>
    requires size { volume.geometry.cells ≡ (V.seen view.old).cells }
    ensures { AsksDocumentIn volume slot id.now (V.seen view.old) (V.seen view.new) result }
{
    if slot >= volume.geometry.slots() {
        return Ok(None);
    }
    let found = match slot_part(view, &volume, slot) {
        Ok(found) => found,
        Err(fault) => return refused(fault),
    };
    let Some(part) = found else {
        return Ok(None);
    };
    kept_part(alloc, view, volume, part, id)
}

/// The same of a part that was found.
fn kept_part<V: View>(
    alloc: Global,
    view: &mut V,
    volume: Volume,
    part: Part,
    id: &[u8],
) -> Result<Option<KeptDocument>, AskFault>
    requires size { volume.geometry.cells ≡ (V.seen view.old).cells }
    requires part { HasPart volume.geometry (V.seen view.old) part }
    ensures { AsksDocumentIn volume part.slot id.now (V.seen view.old) (V.seen view.new) result }
{
    let mut body = Gathered::with_room(alloc, MAX_BODY_BYTES)?;
    let head = match take_part(view, &volume.geometry, &part, &mut body) {
        Ok(head) => head,
        Err(BodyFault::Tampered(evidence)) => return refused(Fault::Tampered(evidence)),
        Err(BodyFault::ReadFault) => return Err(AskFault::ReadFault),
        Err(BodyFault::SinkFault) => {
            let Some(lack) = body.lack() else {
                unreachable!()
            };
            return Err(AskFault::NoMemory(lack));
        }
    };
    if &head.id[..usize::from(head.id_length)] != id {
        return Ok(None);
    }
    let led = match is_indexed(alloc, view, &volume, part.slot, id, body.bytes()) {
        Ok(led) => led,
        Err(why) => return Err(why),
    };
    if !led {
        return Ok(None);
    }
    Ok(Some(KeptDocument {
        volume,
        part,
        body,
        bytes: head.body_length,
    }))
}

/// Where a cell of the slot is out of order nothing is kept in it. A read that failed says nothing.
fn refused(fault: Fault) -> Result<Option<KeptDocument>, AskFault>
    ensures { IsRefused fault result }
{
    match fault {
        Fault::Tampered(_) => Ok(None),
        Fault::Failed => Err(AskFault::ReadFault),
    }
}
