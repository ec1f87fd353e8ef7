//! What it means that somebody else writes: the definition does what the device does.
ghost use Rattle.small_volume.specs.Images.{ForeignCellIsOne, ForeignCellsExtend};

/// Foreign cells leave each written cell as it was.
pub fn foreign_cells_leave_written_cells()
    ensures { ForeignCellsExtend }
{}

/// One foreign cell changes its own cell at most, where that was blank.
pub fn a_foreign_cell_changes_one_blank_cell()
    ensures { ForeignCellIsOne }
{}
