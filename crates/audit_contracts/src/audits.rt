//! The audit.
ghost use Rattle.volume_audit.specs.Audits.{Audits};

use cell_types::Refusal;
use std::alloc::Global;
use volume_audit::{AuditReport, audit};
use worm_device::Device;

/// `audit`.
pub fn audit_again<D: Device>(alloc: Global, device: &mut D) -> Result<AuditReport, Refusal>
    ensures { Audits (D.state device.old) (D.state device.new) result }
{
    audit(alloc, device)
}
