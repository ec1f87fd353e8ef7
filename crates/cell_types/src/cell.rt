//! One written cell.
ghost use Rattle.std.specs.Prelude.{◌≡◌, ◌↔◌, ◌≤◌, IsNone, IfSome, replicate, slice_index};
ghost use Rattle.cell_types.specs.Bytes.{IsCell};

use std::fmt;
use std::marker::Model;

/// Sixteen bytes that stand in a written cell: not all of them are zero, since that is a blank cell.
/// Contracts see the list of the bytes.
///
/// Prints as 32 lower-case hexadecimal digits.
#[derive(Clone, Copy, Debug, PartialEq, Eq)]
pub struct Cell {
    all: [u8; 16],
}

impl Model for Cell {
    ghost use Rattle.std.specs.Prelude.{List, ℕ};
    ghost use Rattle.cell_types.specs.Bytes.{IsCell};

    ghost Value = { List ℕ };

    ghost view = { λ c. c.all };

    ghost invariant = { λ c. IsCell c.all };

    ghost inverse = { λ v. record { all = v } };
}

impl Cell {
    /// The cell of these bytes, or `None` for sixteen zeros.
    pub fn from_bytes(bytes: [u8; 16]) -> Option<Cell>
        ensures blank { IsNone result ↔ (bytes ≡ replicate 16 0) }
        ensures same { IfSome result (λ cell. cell ≡ bytes) }
    {
        // As one number, so that the bytes are looked at together.
        if u128::from_le_bytes(bytes) == 0 {
            return None;
        }
        Some(Cell { all: bytes })
    }

    /// The cell of these bytes, the first of which is not zero.
    pub(crate) fn of_kind(bytes: [u8; 16]) -> Cell
        requires { 1 ≤ slice_index bytes 0 }
        ensures { result ≡ bytes }
    {
        Cell { all: bytes }
    }

    /// The sixteen bytes.
    pub fn bytes(&self) -> [u8; 16]
        ensures same { result ≡ self.now }
        ensures cell { IsCell self.now }
    {
        self.all
    }
}

impl fmt::Display for Cell {
    fn fmt<W: fmt::Write>(&self, f: &mut fmt::Formatter<W>) -> fmt::Result {
        for byte in self.all {
            write!(f, "{byte:02x}")?;
        }
        Ok(())
    }
}
