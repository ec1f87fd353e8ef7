//! The bytes of cells in a row, sixteen of each.
ghost use Rattle.std.specs.Prelude.{◌≡◌, ◌≢◌, ◌≤◌, ◌+◌, ◌*◌, ℕ, length};
ghost use Rattle.worm_device.specs.ReadBytes as rows;

use cell_types::Cell;

/// The bytes that are read of a cell: zeros where it is blank.
fn bytes_of(found: Option<Cell>) -> [u8; 16]
    ensures same { result ≡ rows.bytes_of found }
    ensures sixteen { length result ≡ 16 }
{
    match found {
        Some(cell) => cell.bytes(),
        None => [0; 16],
    }
}

/// Puts the bytes that are read of a cell among those of a row, at the cell's place there.
pub(crate) fn put_found(found: Option<Cell>, place: usize, bytes: &mut [u8])
    requires { 16 * place + 16 ≤ length bytes.old }
    ensures size { length bytes.new ≡ length bytes.old }
    ensures holds { rows.cell_bytes bytes.new place ≡ rows.bytes_of found }
    ensures others { (other : ℕ) → other ≢ place
        → rows.cell_bytes bytes.new other ≡ rows.cell_bytes bytes.old other }
{
    bytes[16 * place..16 * place + 16].copy_from_slice(&bytes_of(found));
}
