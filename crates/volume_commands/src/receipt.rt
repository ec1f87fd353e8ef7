//! The command `receipt`.
ghost use Rattle.volume_commands.specs.Ports.{ports_of};
ghost use Rattle.volume_commands.specs.Receipting.{DoesReceipt};

use crate::outcome::Outcome;
use cell_types::Refusal;
use command_line::put_text;
use document_store::is_identifier;
use host_ports::{Sink, Source};
use receipt_check::make_receipt;
use receipt_text::text_of_receipt;
use std::alloc::Global;
use worm_device::Device;

/// Puts out a receipt of the document with this identifier. The text is made before its first byte goes out.
pub fn put_receipt<D: Device, S: Source, K: Sink>(
    alloc: Global,
    id: &[u8],
    device: &mut D,
    source: &mut S,
    sink: &mut K,
) -> Outcome
    ensures { DoesReceipt id.now (ports_of (D.state device.old) (S.state source.old) (K.state sink.old))
        (ports_of (D.state device.new) (S.state source.new) (K.state sink.new)) result }
{
    if !is_identifier(id) {
        return Err(Refusal::BadIdentifier);
    }
    let receipt = make_receipt(alloc, device, id)?;
    let text = text_of_receipt(alloc, &receipt)?;
    put_text(sink, &text)?;
    Ok(())
}
