//! The cells of a device, read once in rising order and kept in memory.
//!
//! Who judges a whole volume asks for each cell many times, and in no order. A device is fast in rising order alone. So
//! its cells are read once, and asked for in memory from then on: there no read fails, nobody else writes, and each
//! question is one of a value.
//!
//! Only written cells are kept, by rising numbers, and for each page of 256 cells how many of them stand before it. Of
//! the volume of 1,000 cells that holds the document `a` eleven are written:
//!
//!     place     0  1  2  3  4   5   6   7    8    9    10
//!     number    0  4  5  6  36  37  560 580  581  582  583
//!     starts    page 0: 0    page 1: 6    page 2: 6    page 3: 11
//!
//! `at(560)` is of page 2, so it stands at one of the places 6 to 10, and it is found at 6; `at(300)` is of page
//! 1, of which nothing was written. That costs 20 bytes a written cell and 4 bytes a page, and no bytes more for a blank
//! cell: 1,000,000 cells of which 650,000 are written take 13 MB, and 2^31 blank ones 32 MB. The written cells stand in
//! chunks of 4,096, and a full chunk is never copied: so this is what is held at any moment, but for the rest of the
//! last chunk. A question takes 10 looks at most, the first two at the places that numbers without a gap would have.
//!
//! What is kept lies between what stood when the reading began and what stands at its end, and is both where nobody else
//! wrote.
//!
//! `specs/Kept.antt` says what is kept.
ghost use Rattle.std.specs.Prelude.{◌≤◌, ◌+◌};
ghost use Rattle.cell_types.specs.Image.{IsUnchanged};
ghost use Rattle.worm_device.specs.Calls.{Called};
ghost use Rattle.worm_device.specs.Counts.{IsStill};
ghost use Rattle.log_audit.specs.Kept.{KeepEnds};

use crate::KeptCells;
use cell_types::Refusal;
use std::alloc::Global;
use worm_device::Device;

/// Reads each cell of the device once, in rising order.
///
/// # Errors
///
/// `NoMemory`, `DeviceFault`.
pub fn keep_cells<D: Device>(alloc: Global, device: &mut D) -> Result<KeptCells, Refusal>
    ensures called { Called (D.state device.old) (D.state device.new) }
    ensures reads { (D.state device.new).reads ≤ (D.state device.old).reads + (D.state device.old).cells }
    ensures quiet { IsStill (D.state device.old).foreign_writes (D.state device.new).foreign_writes
        → IsUnchanged (D.state device.old).image (D.state device.new).image }
    ensures ends { KeepEnds (D.state device.old) (D.state device.new) result }
{
    let count = device.cells();
    let mut kept = KeptCells::none(alloc, count)?;
    for at in 0..count {
        let Ok(found) = device.read(at) else {
            return Err(Refusal::DeviceFault);
        };
        kept.keep_next(alloc, found)?;
    }
    Ok(kept)
}
