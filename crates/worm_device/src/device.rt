//! A device: cells that are written once, a sync, and faults.
ghost use Rattle.std.specs.Prelude.{◌≡◌, ◌<◌, ◌≤◌, ◌+◌, ◌/◌, ◌%◌, length};
ghost use Rattle.cell_types.specs.declared.refusal.Fault.TheVariants as faults;
ghost use Rattle.cell_types.specs.declared.refusal.Refusal.TheVariants as refusals;
ghost use Rattle.worm_device.specs.Calls.{Reads, Writes, Syncs};
ghost use Rattle.worm_device.specs.ReadBytes.{ReadsBytes};
ghost use Rattle.worm_device.specs.ReadRows.{ReadsRow};
ghost use Rattle.worm_device.specs.Rows.{WritesRow};
ghost use Rattle.worm_device.specs.State.{DeviceState, IsDevice};

use crate::row_bytes::put_found;
use cell_types::{Cell, Fault, Refusal};

/// A call failed. The device, view, source or sink that it was asked of has counted a fault.
#[derive(Clone, Copy, Debug, PartialEq, Eq)]
pub struct Failed;

impl From<Failed> for Fault {
    ghost from_gives = { λ _ fault. fault ≡ faults.Failed };

    fn from(_: Failed) -> Fault {
        Fault::Failed
    }
}

impl From<Failed> for Refusal {
    ghost from_gives = { λ _ refusal. refusal ≡ refusals.DeviceFault };

    fn from(_: Failed) -> Refusal {
        Refusal::DeviceFault
    }
}

/// What a write did.
#[derive(Clone, Copy, Debug, PartialEq, Eq)]
pub enum Written {
    /// The cell was blank, and holds the value now.
    Done,
    /// The cell was written already, and holds this.
    Taken(Cell),
}

/// What a row of writes did.
#[derive(Clone, Copy, Debug, PartialEq, Eq)]
pub enum RowWritten {
    /// Each cell of the row holds its value now.
    Whole,
    /// The cell of this number holds this, which is another value. Those before it hold theirs.
    Other(u32, Cell),
}

/// Cells that are written once.
///
/// Cells are numbered from 0. Somebody else may write blank cells at any time; such foreign writes count as
/// made before a call. Between two syncs a crash may take any of the cells that are not sure.
pub trait Device {
    /// What the device is, for contracts.
    ghost state: { Self → DeviceState };

    /// How many cells it has, 1 to 2,147,483,648.
    fn cells(&self) -> u32
        ensures cells { result ≡ (state self.now).cells };

    /// What stands in a cell, `None` where it is blank.
    fn read(&mut self, at: u32) -> Result<Option<Cell>, Failed>
        requires { at < (state self.old).cells }
        ensures { Reads at (state self.old) (state self.new) result };

    /// What stands in neighbouring cells, as many as there is room for. It is the same as a read of each, in rising
    /// order; a device may do it in fewer steps.
    fn read_row(&mut self, at: u32, cells: &mut [Option<Cell>]) -> Result<(), Failed>
        requires { at + length cells.old ≤ (state self.old).cells }
        ensures { ReadsRow at cells.old cells.new (state self.old) (state self.new) result }
    {
        for place in 0..cells.len() {
            cells[place] = self.read(at + place as u32)?;
        }
        Ok(())
    }

    /// The bytes of neighbouring cells, sixteen of each, and zeros of a blank one; of as many cells as there is room for.
    /// It is the same as a read of each, in rising order; a device may do it in fewer steps.
    fn read_bytes(&mut self, at: u32, bytes: &mut [u8]) -> Result<(), Failed>
        requires whole { length bytes.old % 16 ≡ 0 }
        requires inside { at + length bytes.old / 16 ≤ (state self.old).cells }
        ensures { ReadsBytes at bytes.old bytes.new (state self.old) (state self.new) result }
    {
        for place in 0..bytes.len() / 16 {
            let found = self.read(at + place as u32)?;
            put_found(found, place, bytes);
        }
        Ok(())
    }

    /// Writes a blank cell. A written one stays as it is.
    fn write(&mut self, at: u32, value: Cell) -> Result<Written, Failed>
        requires { at < (state self.old).cells }
        ensures { Writes at value (state self.old) (state self.new) result };

    /// Writes neighbouring cells, in rising order, up to the first that holds another value than it is to hold. It is
    /// the same as a write of each; a device may do it in fewer steps.
    fn write_row(&mut self, at: u32, values: &[Cell]) -> Result<RowWritten, Failed>
        requires { at + length values.now ≤ (state self.old).cells }
        ensures { WritesRow at values.now (state self.old) (state self.new) result }
    {
        for place in 0..values.len() {
            let cell = at + place as u32;
            let value = values[place];
            let written = self.write(cell, value)?;
            if let Written::Taken(found) = written {
                if found != value {
                    return Ok(RowWritten::Other(cell, found));
                }
            }
        }
        Ok(RowWritten::Whole)
    }

    /// Makes each cell sure that was written when the call began, whoever wrote it.
    fn sync(&mut self) -> Result<(), Failed>
        ensures { Syncs (state self.old) (state self.new) result };

    /// What holds of every device.
    ghost proper: { (device : Self) → IsDevice (state device) };
}
