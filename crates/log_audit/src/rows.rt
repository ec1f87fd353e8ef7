//! Kept cells one after another.
ghost use Rattle.std.specs.Prelude.{◌≡◌, length, slice_get};
ghost use Rattle.log_audit.specs.Kept.{count_of};
ghost use Rattle.log_audit.specs.Rows.{rows_of, AreRows};

use crate::KeptCells;
use crate::written::WrittenCell;

impl KeptCells {
    /// How many of the kept cells are written.
    pub fn written(&self) -> u32
        ensures count { result ≡ length (rows_of self.now) }
        ensures rows { AreRows (count_of self.now) (rows_of self.now) }
    {
        self.rows.count() as u32
    }

    /// The written cell at this place of their row, which goes by rising numbers.
    pub fn written_at(&self, place: u32) -> Option<WrittenCell>
        ensures { result ≡ slice_get (rows_of self.now) place }
    {
        self.rows.row_at(place as usize)
    }
}
