//! The first three phases.
ghost use Rattle.std.specs.Prelude.{◌<◌, ◌≤◌, ◌+◌};
ghost use Rattle.cell_types.specs.Records.{IsWellFormed};
ghost use Rattle.cell_types.specs.declared.record_cell.RecordCell.TheVariants.{Commit};
ghost use Rattle.recovery_engine.specs.Putting.{IsThis, Puts, PutsPhase};
ghost use Rattle.plan_writer.specs.Planned.{IsStampPut, IsStoredPut, commit_put, reserve_put, reserved_by};

use crate::plan::Plan;
use cell_types::{Fault, Geometry, RecordCell, encode};
use commit_record::Reservation;
use recovery_engine::{Blame, Put, put_cell, put_one, put_row};
use tamper_rules::{OUTCOME_CELL, RESERVE_CELL, STRAY_CELL};
use worm_device::Device;

/// The reserve cell.
pub fn reserve<D: Device>(
    device: &mut D,
    geometry: &Geometry,
    slot: u32,
    cells: Reservation,
) -> Result<(), Fault>
    requires slot { slot < geometry.now.slots }
    requires size { geometry.now.cells ≤ (D.state device.old).cells }
    requires some { 1 ≤ cells.length }
    ensures { PutsPhase (IsThis (reserve_put slot cells)) (D.state device.old) (D.state device.new) result }
{
    let at = geometry.reserve_at(slot);
    let put = Put {
        at,
        value: encode(
            RecordCell::Reserve {
                start: cells.start,
                length: cells.length,
            },
            at,
        ),
        blame: Blame::Rule(RESERVE_CELL),
    };
    put_one(device, &put)
}

/// The stamp cell, if a stamp is given, the document's cells, and the journal's behind them.
pub fn store<D: Device>(
    device: &mut D,
    geometry: &Geometry,
    slot: u32,
    plan: &Plan<'_>,
) -> Result<(), Fault>
    requires slot { slot < geometry.now.slots }
    requires size { geometry.now.cells ≤ (D.state device.old).cells }
    requires inside { plan.now.start + (reserved_by plan.now).length ≤ geometry.now.cells }
    ensures { PutsPhase (IsStoredPut slot plan.now) (D.state device.old) (D.state device.new) result }
{
    put_stamp(device, geometry, slot, plan.stamp)?;
    let document = plan.start + plan.block_length;
    put_row(device, document, plan.document, STRAY_CELL)?;
    let journal = document + plan.document.len() as u32;
    put_row(device, journal, plan.journal, STRAY_CELL)?;
    device.sync()?;
    Ok(())
}

/// The stamp cell, if a stamp is given.
fn put_stamp<D: Device>(
    device: &mut D,
    geometry: &Geometry,
    slot: u32,
    stamp: Option<u32>,
) -> Result<(), Fault>
    requires slot { slot < geometry.now.slots }
    requires size { geometry.now.cells ≤ (D.state device.old).cells }
    ensures { Puts (IsStampPut slot stamp) (D.state device.old) (D.state device.new) result }
{
    let Some(seconds) = stamp else {
        return Ok(());
    };
    let at = geometry.spare_at(slot);
    let put = Put {
        at,
        value: encode(RecordCell::Stamp { seconds }, at),
        blame: Blame::Rule(STRAY_CELL),
    };
    put_cell(device, &put)
}

/// The commit cell.
pub fn commit<D: Device>(
    device: &mut D,
    geometry: &Geometry,
    slot: u32,
    bytes: u32,
    journal: u32,
) -> Result<(), Fault>
    requires slot { slot < geometry.now.slots }
    requires size { geometry.now.cells ≤ (D.state device.old).cells }
    requires well_formed { IsWellFormed (Commit bytes journal) 0 }
    ensures { PutsPhase (IsThis (commit_put slot bytes journal)) (D.state device.old) (D.state device.new) result }
{
    let at = geometry.outcome_at(slot);
    let put = Put {
        at,
        value: encode(RecordCell::Commit { bytes, journal }, at),
        blame: Blame::Rule(OUTCOME_CELL),
    };
    put_one(device, &put)
}
