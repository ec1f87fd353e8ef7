//! The command `audit`.
ghost use Rattle.std.specs.Prelude.{◌≡◌, ◌++◌, IfOk, OnOk};
ghost use Rattle.volume_commands.specs.Auditing.{DoesAudit, count_text, report_text};
ghost use Rattle.volume_commands.specs.Ports.{ports_of};

use crate::outcome::Outcome;
use cell_types::{NoMemory, memory};
use command_line::put_text;
use host_ports::{Meter, Sink, Source};
use itoa::Buffer;
use std::alloc::Global;
use volume_audit::{AuditReport, audit_metered};
use worm_device::Device;

/// Audits the volume, and puts out how many slots and cells it has. The text is made before its first byte goes out.
pub fn audit_volume<D: Device, S: Source, K: Sink, M: Meter>(
    alloc: Global,
    device: &mut D,
    source: &mut S,
    sink: &mut K,
    meter: &mut M,
) -> Outcome
    ensures { DoesAudit (ports_of (D.state device.old) (S.state source.old) (K.state sink.old))
        (ports_of (D.state device.new) (S.state source.new) (K.state sink.new)) result }
{
    let report = audit_metered(alloc, device, meter)?;
    let text = text_of(alloc, &report)?;
    put_text(sink, &text)?;
    Ok(())
}

/// The text that tells of a sound volume.
fn text_of(alloc: Global, report: &AuditReport) -> Result<Vec<u8>, NoMemory>
    ensures { IfOk result (λ text. text.items ≡ report_text report.now) }
{
    let mut text = Vec::new(alloc);
    memory::extend_from_slice(&mut text, b"sound: ")?;
    push_count(&mut text, report.done, b" done, ")?;
    push_count(&mut text, report.abandoned, b" abandoned, ")?;
    push_count(&mut text, report.written, b" written cells\n")?;
    Ok(text)
}

/// Puts a number and what is counted behind the text.
fn push_count(text: &mut Vec<u8>, count: u32, counted: &[u8]) -> Result<(), NoMemory>
    ensures { OnOk result (text.new.items ≡ text.old.items ++ count_text count counted.now) }
{
    let mut digits = Buffer::new();
    memory::extend_from_slice(text, digits.format(count).as_bytes())?;
    memory::extend_from_slice(text, counted)
}
