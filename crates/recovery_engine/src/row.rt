//! Rows of cells, and phases.
ghost use Rattle.std.specs.Prelude.{◌≡◌, ◌<◌, ◌≤◌, ◌+◌, length};
ghost use Rattle.recovery_engine.specs.Putting.{Puts, PutsPhase, IsInRow, IsThis};

use crate::put::{Put, put_cell};
use cell_types::{Cell, Fault, breach};
use worm_device::{Device, RowWritten};

/// Puts these cells from one on, in rising order. One that holds something else breaks the rule of this number.
pub fn put_row<D: Device>(device: &mut D, from: u32, cells: &[Cell], rule: u8) -> Result<(), Fault>
    requires { from + length cells.now ≤ (D.state device.old).cells }
    ensures { Puts (IsInRow from cells.now rule) (D.state device.old) (D.state device.new) result }
{
    let written = device.write_row(from, cells)?;
    if let RowWritten::Other(cell, found) = written {
        return Err(breach(rule, cell, found));
    }
    Ok(())
}

/// A phase of one cell: puts it, and makes it sure.
pub fn put_one<D: Device>(device: &mut D, put: &Put) -> Result<(), Fault>
    requires { put.now.at < (D.state device.old).cells }
    ensures { PutsPhase (IsThis put.now) (D.state device.old) (D.state device.new) result }
{
    put_cell(device, put)?;
    device.sync()?;
    Ok(())
}
