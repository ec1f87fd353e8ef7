//! One page of a file in memory: the bytes of 256 cells.
ghost use Rattle.std.specs.Prelude.{◌≡◌, ◌≢◌, ◌<◌, ◌≤◌, ◌+◌, ◌*◌, ◌%◌, ℕ, length};
ghost use Rattle.worm_device.specs.ReadBytes.{cell_bytes};
ghost use Rattle.host_files.specs.Cells.{AreCellsIn, cell_in};

use cell_types::Cell;

/// The bytes of a page, 256 cells of 16.
pub(crate) const PAGE_BYTES: usize = 4_096;

/// The cells of a page.
pub(crate) const PAGE_CELLS: u32 = 256;

/// How many of so many cells, from this one on, lie on its page.
pub(crate) fn cells_on_page(at: u32, count: usize) -> usize
    ensures most { result ≤ count }
    ensures page { at % 256 + result ≤ 256 }
    ensures some { 1 ≤ count → 1 ≤ result }
{
    count.min((PAGE_CELLS - at % PAGE_CELLS) as usize)
}

/// Where the bytes of a cell begin among those of its page.
fn first_byte(place: u8) -> usize
    ensures { result ≡ 16 * place }
{
    16 * place as usize
}

/// A cell of these bytes of a page, by its place there: `None` where it is blank.
pub(crate) fn cell_at(bytes: &[u8; PAGE_BYTES], place: u8) -> Option<Cell>
    ensures { result ≡ cell_in (cell_bytes bytes.now place) }
{
    let from = first_byte(place);
    let mut found = [0; 16];
    found.copy_from_slice(&bytes[from..from + 16]);
    Cell::from_bytes(found)
}

/// Puts a cell among these bytes of a page, at its place there, and leaves each other cell as it is.
pub(crate) fn put_at(bytes: &mut [u8; PAGE_BYTES], place: u8, cell: Cell)
    ensures holds { cell_bytes bytes.new place ≡ cell }
    ensures others { (other : ℕ) → other ≢ place → cell_bytes bytes.new other ≡ cell_bytes bytes.old other }
{
    let from = first_byte(place);
    bytes[from..from + 16].copy_from_slice(&cell.bytes());
}

/// Copies neighbouring cells of these bytes of a page, from this place on.
pub(crate) fn copy_cells(bytes: &[u8; PAGE_BYTES], first: u32, into: &mut [Option<Cell>])
    requires { first + length into.old ≤ 256 }
    ensures size { length into.new ≡ length into.old }
    ensures cells { AreCellsIn (length into.new) first into.new bytes.now }
{
    for place in 0..into.len() {
        into[place] = cell_at(bytes, (first + place as u32) as u8);
    }
}
