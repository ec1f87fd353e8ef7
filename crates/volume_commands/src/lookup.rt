//! The command `lookup`.
ghost use Rattle.volume_commands.specs.LookingUp.{DoesLookUp};
ghost use Rattle.volume_commands.specs.Ports.{ports_of};

use crate::outcome::Outcome;
use cell_types::Refusal;
use document_store::is_identifier;
use host_ports::{Sink, Source};
use record_query::lookup_into;
use worm_device::Device;

/// Puts out the body of the document with this identifier. Takes no memory.
pub fn lookup_document<D: Device, S: Source, K: Sink>(
    id: &[u8],
    device: &mut D,
    source: &mut S,
    sink: &mut K,
) -> Outcome
    ensures { DoesLookUp id.now (ports_of (D.state device.old) (S.state source.old) (K.state sink.old))
        (ports_of (D.state device.new) (S.state source.new) (K.state sink.new)) result }
{
    if !is_identifier(id) {
        return Err(Refusal::BadIdentifier);
    }
    lookup_into(device, id, sink)?;
    Ok(())
}
