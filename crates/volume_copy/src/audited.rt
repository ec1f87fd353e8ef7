//! A volume that was audited, and where its documents lie.
ghost use Rattle.volume_copy.specs.Auditing.{AuditsSteady, SourceEnds};
ghost use Rattle.volume_copy.specs.Staying.{IsHeldThroughout};

use crate::walking::done_parts;
use cell_types::{Refusal, Volume};
use document_store::Part;
use host_ports::Meter;
use recovery_engine::settle;
use std::alloc::Global;
use volume_audit::audit_metered;
use worm_device::Device;

/// A volume that was audited.
#[derive(Drop)]
pub(crate) struct AuditedVolume {
    pub volume: Volume,
    /// Where its documents lie, by rising number of their slots.
    pub parts: Vec<Part>,
}

/// Audits the volume, and goes along its slots. An audit says how many documents there are, and not where: so the end of the
/// log is asked for again, behind it.
pub(crate) fn audited_volume<D: Device, M: Meter>(
    alloc: Global,
    device: &mut D,
    meter: &mut M,
) -> Result<AuditedVolume, Refusal>
    ensures held { IsHeldThroughout (D.state device.old) (D.state device.new) }
    ensures steady { AuditsSteady (D.state device.old) (D.state device.new) result }
    ensures ends { SourceEnds (D.state device.old) (D.state device.new) result }
{
    let _report = audit_metered(alloc, device, meter)?;
    let ready = settle(device)?;
    let parts = done_parts(alloc, device, &ready.volume, ready.horizon)?;
    Ok(AuditedVolume {
        volume: ready.volume,
        parts,
    })
}
