//! The audit.
ghost use Rattle.volume_audit.specs.Audits.{Audits};

use crate::judging::judge;
use crate::report::AuditReport;
use cell_types::Refusal;
use commit_record::volume_of;
use host_ports::{Meter, Silent};
use log_audit::keep_cells;
use recovery_engine::settle;
use std::alloc::Global;
use worm_device::Device;

/// Settles the volume, reads each cell of the device once, in rising order, and checks each rule at each written cell.
///
/// # Errors
///
/// `NotFormatted`, `NotAVolume` and `WrongSize` by cell 0; `Tampered` with what settling names, or else with the least cell
/// of the least rule that is broken; `DeviceFault`; `NoMemory`.
pub fn audit<D: Device>(alloc: Global, device: &mut D) -> Result<AuditReport, Refusal>
    ensures { Audits (D.state device.old) (D.state device.new) result }
{
    audit_metered(alloc, device, &mut Silent)
}

/// The same, and shows how many of the checks of slots are made, once all cells are read.
pub fn audit_metered<D: Device, M: Meter>(
    alloc: Global,
    device: &mut D,
    meter: &mut M,
) -> Result<AuditReport, Refusal>
    ensures { Audits (D.state device.old) (D.state device.new) result }
{
    let _ready = settle(device)?;
    let kept = keep_cells(alloc, device)?;
    let volume = volume_of(kept.at(0), kept.count())?;
    judge(alloc, kept, volume.geometry, meter)
}
