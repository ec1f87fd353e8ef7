//! The command `check`.
ghost use Rattle.std.specs.Prelude.{◌≡◌, IfOk};
ghost use Rattle.volume_commands.specs.Checking.{DoesCheck, kept_line};
ghost use Rattle.volume_commands.specs.Ports.{ports_of};

use crate::body::{MAX_RECEIPT_BYTES, take_input};
use crate::outcome::Outcome;
use cell_types::{NoMemory, memory};
use command_line::{push_document_line, put_text};
use host_ports::{Sink, Source};
use receipt_check::{Checked, check_receipt};
use receipt_text::{Receipt, read_receipt};
use std::alloc::Global;
use worm_device::Device;

/// Checks the receipt that the source gives, and puts out of which document it is. Writes nothing on the device.
pub fn check_source<D: Device, S: Source, K: Sink>(
    alloc: Global,
    device: &mut D,
    source: &mut S,
    sink: &mut K,
) -> Outcome
    ensures { DoesCheck (ports_of (D.state device.old) (S.state source.old) (K.state sink.old))
        (ports_of (D.state device.new) (S.state source.new) (K.state sink.new)) result }
{
    let text = take_input(alloc, source, MAX_RECEIPT_BYTES)?;
    let receipt = read_receipt(alloc, &text, device.cells())?;
    let checked = check_receipt(alloc, device, &receipt)?;
    let line = line_of(alloc, &receipt, checked)?;
    put_text(sink, &line)?;
    Ok(())
}

/// The line that tells of the document that the receipt showed.
fn line_of(alloc: Global, receipt: &Receipt, checked: Checked) -> Result<Vec<u8>, NoMemory>
    ensures { IfOk result (λ line. line.items ≡ kept_line receipt.now checked) }
{
    let mut line = memory::from_slice(alloc, b"kept ")?;
    push_document_line(
        &mut line,
        checked.slot,
        receipt.identifier.bytes(),
        checked.bytes,
    )?;
    Ok(line)
}
