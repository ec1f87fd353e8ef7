//! A written cell, by its number.
use cell_types::Cell;

/// How many cells make a page: for each page it is kept how many written cells stand before it.
pub(crate) const PAGE_CELLS: u32 = 256;

/// What was found in a written cell, with its number.
#[derive(Clone, Copy)]
pub struct WrittenCell {
    pub number: u32,
    pub cell: Cell,
}
