//! The command `ingest`.
ghost use Rattle.volume_commands.specs.Ingesting.{DoesIngest};
ghost use Rattle.volume_commands.specs.Ports.{ports_of};

use crate::body::take_input;
use crate::outcome::Outcome;
use cell_types::Refusal;
use command_line::put_slot_line;
use document_store::is_identifier;
use host_ports::{Sink, Source};
use std::alloc::Global;
use volume_meaning::MAX_BODY_BYTES;
use worm_device::Device;

/// Stores the body that the source gives, in the first free slot, and acknowledges it. On a volume of stamped documents
/// it has this stamp, in seconds.
pub fn ingest_body<D: Device, S: Source, K: Sink>(
    alloc: Global,
    id: &[u8],
    stamp: Option<u32>,
    device: &mut D,
    source: &mut S,
    sink: &mut K,
) -> Outcome
    ensures { DoesIngest id.now stamp (ports_of (D.state device.old) (S.state source.old) (K.state sink.old))
        (ports_of (D.state device.new) (S.state source.new) (K.state sink.new)) result }
{
    if !is_identifier(id) {
        return Err(Refusal::BadIdentifier);
    }
    let body = take_input(alloc, source, MAX_BODY_BYTES)?;
    let slot = ingest_engine::ingest(alloc, device, id, stamp, &body)?;
    // No memory is taken any more: the document is sure.
    put_slot_line(sink, "acknowledged ", slot, "\n")?;
    Ok(())
}
