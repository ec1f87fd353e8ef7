//! A view: what may be read of a device, or of what is planned for one.
ghost use Rattle.std.specs.Prelude.{◌≡◌, ◌<◌, ◌≤◌, ◌+◌, ◌/◌, ◌%◌, length};
ghost use Rattle.worm_device.specs.ReadBytes.{ViewReadsBytes};
ghost use Rattle.worm_device.specs.ReadRows.{ViewReadsRow};
ghost use Rattle.worm_device.specs.Views.{ViewState, ViewReads, IsView};

use crate::Failed;
use crate::row_bytes::put_found;
use cell_types::Cell;

/// Cells that can be read.
///
/// A view stands over a device, directly or over other views. A holder may show planned cells over those below: what
/// these are stays through each read, whatever stands below. A type that holds a view of type `V` by value passes on
/// `(V.seen held).base` and `.loans`; one that holds a `&mut V` puts the loan's own name in front.
pub trait View {
    /// What the view is, for contracts.
    ghost seen: { Self → ViewState };

    /// How many cells it has.
    fn cells(&self) -> u32
        ensures cells { result ≡ (seen self.now).cells };

    /// What the view shows in a cell, `None` where it is blank. It costs the device below one read at most.
    fn read(&mut self, at: u32) -> Result<Option<Cell>, Failed>
        requires { at < (seen self.old).cells }
        ensures { ViewReads at (seen self.old) (seen self.new) result };

    /// What the view shows in neighbouring cells, as many as there is room for. It is the same as a read of each, in
    /// rising order; a view may do it in fewer steps.
    fn read_row(&mut self, at: u32, cells: &mut [Option<Cell>]) -> Result<(), Failed>
        requires { at + length cells.old ≤ (seen self.old).cells }
        ensures { ViewReadsRow at cells.old cells.new (seen self.old) (seen self.new) result }
    {
        for place in 0..cells.len() {
            cells[place] = self.read(at + place as u32)?;
        }
        Ok(())
    }

    /// The bytes of neighbouring cells, sixteen of each, and zeros of a blank one; of as many cells as there is room for.
    /// It is the same as a read of each, in rising order; a view may do it in fewer steps.
    fn read_bytes(&mut self, at: u32, bytes: &mut [u8]) -> Result<(), Failed>
        requires whole { length bytes.old % 16 ≡ 0 }
        requires inside { at + length bytes.old / 16 ≤ (seen self.old).cells }
        ensures { ViewReadsBytes at bytes.old bytes.new (seen self.old) (seen self.new) result }
    {
        for place in 0..bytes.len() / 16 {
            let found = self.read(at + place as u32)?;
            put_found(found, place, bytes);
        }
        Ok(())
    }

    /// What holds of every view.
    ghost proper: { (view : Self) → IsView (seen view) };
}
