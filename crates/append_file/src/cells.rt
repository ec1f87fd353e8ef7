//! The content cells that bytes are stored in.
ghost use Rattle.std.specs.Prelude.{◌≡◌, IfOk, OnOk};
ghost use Rattle.append_file.specs.StoredCells.{AddsCellsOf, AreCellsOf};
ghost use Rattle.volume_meaning.specs.Slots as slots;

use cell_types::{Cell, NoMemory, content, memory};
use std::alloc::Global;

/// How many bytes of a document a content cell holds.
pub const CONTENT_BYTES: u32 = 15;

/// How many content cells so many bytes take.
pub fn cells_for(bytes: u32) -> u32
    ensures { result ≡ slots.cells_for bytes }
{
    bytes.div_ceil(CONTENT_BYTES)
}

/// The content cells of these bytes, in order.
pub fn content_cells(alloc: Global, bytes: &[u8]) -> Result<Vec<Cell>, NoMemory>
    ensures { IfOk result (λ cells. AreCellsOf bytes.now cells.items) }
{
    let mut cells = memory::with_capacity(alloc, bytes.len().div_ceil(CONTENT_BYTES as usize))?;
    push_content(&mut cells, bytes)?;
    Ok(cells)
}

/// Adds the content cells of these bytes: 15 of them in each but the last.
pub fn push_content(cells: &mut Vec<Cell>, bytes: &[u8]) -> Result<(), NoMemory>
    ensures { OnOk result (AddsCellsOf bytes.now cells.old.items cells.new.items) }
{
    let mut rest = bytes;
    while !rest.is_empty() {
        let (front, behind) = rest.split_at((CONTENT_BYTES as usize).min(rest.len()));
        memory::push(cells, content(front))?;
        rest = behind;
    }
    Ok(())
}
