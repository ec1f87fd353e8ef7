//! That the cells of a new slot are blank.
ghost use Rattle.std.specs.Prelude.{◌≡◌, ◌<◌, ◌≤◌, ◌+◌, ◌^◌, length};
ghost use Rattle.plan_writer.specs.Blank.{LooksAlong, LooksAt, LooksForSlot, RowLookEnds};
ghost use Rattle.plan_writer.specs.declared.blank.TheConstants.{ROW_CELLS};

use cell_types::{Cell, Fault, Geometry, breach};
use commit_record::Reservation;
use tamper_rules::{DONE_CELL, OUTCOME_CELL, STRAY_CELL};
use worm_device::Device;

/// How many cells are read at once, at most.
const ROW_CELLS: u32 = 16;

/// That the outcome, done and spare cells of the slot are blank, and then the cells that it will reserve, upwards. The
/// first that is written is named.
pub fn check_blank<D: Device>(
    device: &mut D,
    geometry: &Geometry,
    slot: u32,
    cells: Reservation,
) -> Result<(), Fault>
    requires slot { slot < geometry.now.slots }
    requires size { geometry.now.cells ≤ (D.state device.old).cells }
    requires fits { cells.start + cells.length ≤ geometry.now.cells }
    ensures { LooksForSlot slot cells (D.state device.old) (D.state device.new) result }
{
    look_at(device, geometry.outcome_at(slot), OUTCOME_CELL)?;
    look_at(device, geometry.done_at(slot), DONE_CELL)?;
    look_at(device, geometry.spare_at(slot), STRAY_CELL)?;
    look_along(device, cells)
}

/// That a cell is blank. A written one breaks the rule of this number.
fn look_at<D: Device>(device: &mut D, cell: u32, rule: u8) -> Result<(), Fault>
    requires { cell < (D.state device.old).cells }
    ensures { LooksAt cell rule (D.state device.old) (D.state device.new) result }
{
    match device.read(cell)? {
        None => Ok(()),
        Some(found) => Err(breach(rule, cell, found)),
    }
}

/// That cells of the pool are blank. They are read row by row.
fn look_along<D: Device>(device: &mut D, cells: Reservation) -> Result<(), Fault>
    requires { cells.start + cells.length ≤ (D.state device.old).cells }
    ensures { LooksAlong cells (D.state device.old) (D.state device.new) result }
{
    let end = cells.end();
    let mut start = cells.start;
    while start < end {
        let length = ROW_CELLS.min(end - start);
        look_at_row(device, Reservation { start, length })?;
        start += length;
    }
    Ok(())
}

/// That the cells of one row are blank.
fn look_at_row<D: Device>(device: &mut D, cells: Reservation) -> Result<(), Fault>
    requires few { cells.length ≤ ROW_CELLS }
    requires inside { cells.start + cells.length ≤ (D.state device.old).cells }
    ensures { LooksAlong cells (D.state device.old) (D.state device.new) result }
{
    let mut found = [None; ROW_CELLS as usize];
    let row = &mut found[..cells.length as usize];
    device.read_row(cells.start, row)?;
    check_row(cells.start, row)
}

/// That nothing was found in a row of cells, of which this is the first.
fn check_row(start: u32, row: &[Option<Cell>]) -> Result<(), Fault>
    requires { start + length row.now < 2 ^ 32 }
    ensures { RowLookEnds start row.now result }
{
    for place in 0..row.len() {
        if let Some(found) = row[place] {
            return Err(breach(STRAY_CELL, start + place as u32, found));
        }
    }
    Ok(())
}
