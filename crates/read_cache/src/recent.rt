//! Cells that were read lately, each at a place by its number.
ghost use Rattle.std.specs.Prelude.{◌≡◌, ◌<◌, replicate};
ghost use Rattle.read_cache.specs.Keeping.{held_cell, no_cell, place_of};

use cell_types::Cell;

/// How many places there are.
pub(crate) const PLACES: usize = 128;

/// A place: the cell that was read last of those that belong there.
#[derive(Clone, Copy)]
pub(crate) struct Recent {
    /// Its number.
    pub(crate) at: u32,
    /// `None` where no cell was put here yet.
    pub(crate) cell: Option<Cell>,
    /// How often it was asked for again, 255 at most.
    pub(crate) asked: u8,
}

/// Places with no cell yet.
pub(crate) fn no_cells() -> [Recent; PLACES]
    ensures { result ≡ replicate 128 no_cell }
{
    let none = Recent {
        at: 0,
        cell: None,
        asked: 0,
    };
    [none; PLACES]
}

/// The place of a cell. Neighbours have different ones, and so have the first cells of neighbouring blocks.
pub(crate) fn place_of(at: u32) -> usize
    ensures is { result ≡ place_of at }
    ensures inside { result < 128 }
{
    (at % 256 + at / 256) as usize % PLACES
}

/// The cell of a place, if it has this number.
pub(crate) fn cell_of(held: &Recent, at: u32) -> Option<Cell>
    ensures { result ≡ held_cell at held.now }
{
    if held.at != at {
        return None;
    }
    held.cell
}
