//! Planned cells, and a view of them over another view.
ghost use Rattle.worm_device.specs.Owned.{AreOwned};

use crate::Owner;
use cell_types::Cell;
use std::collections::BTreeMap;

/// How many cells an overlay shows: all that have a number of 32 bits but the last.
pub const OVERLAY_CELLS: u32 = 4_294_967_295;

/// Cells that are planned, by their numbers, and for whom each of them is.
#[derive(Drop)]
pub struct PlannedCells {
    pub(crate) planned: BTreeMap<u32, Cell>,
    pub(crate) owners: BTreeMap<u32, Owner>,
    ghost owned: { AreOwned planned owners },
}

/// Planned cells over what another view shows. The cells are lent to it, and keep the memory that they take.
///
/// A planned cell reads as planned. From `fresh` on a cell that is not planned is blank, and the view below is not
/// asked: new blocks are planned there, and what somebody writes into their cells meanwhile is not seen.
#[derive(Drop)]
pub struct Overlay<'a, V> {
    pub(crate) view: V,
    pub(crate) own: &'a mut PlannedCells,
    pub(crate) fresh: u32,
}
