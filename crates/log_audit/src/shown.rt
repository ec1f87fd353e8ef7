//! Kept cells as a view, for whoever reads through views.
ghost use Rattle.std.specs.Prelude.{◌≡◌};

use crate::KeptCells;
use cell_types::Cell;
use worm_device::{Failed, View};

/// The view that shows kept cells, which are lent to it.
#[derive(Drop)]
pub struct Shown<'a> {
    pub kept: &'a KeptCells,
}

impl<'a> Shown<'a> {
    /// The view of these cells.
    pub fn new(kept: &'a KeptCells) -> Shown<'a>
        ensures { result.kept.now ≡ kept.now }
    {
        Shown { kept }
    }
}

impl<'a> View for Shown<'a> {
    ghost use Rattle.log_audit.specs.AllRows.{all_rows};
    ghost use Rattle.log_audit.specs.Kept.{view_of};
    ghost use Rattle.log_audit.specs.Viewing.{kept_is_view};

    ghost seen = { λ v. view_of v.kept.now };

    ghost proper = { λ v. kept_is_view v.kept.now.count (all_rows v.kept.now.rows) v.kept.now.starts.items v.kept.now.kept };

    fn cells(&self) -> u32 {
        self.kept.count()
    }

    /// What was found in the cell. No such read fails.
    fn read(&mut self, at: u32) -> Result<Option<Cell>, Failed> {
        Ok(self.kept.at(at))
    }
}
