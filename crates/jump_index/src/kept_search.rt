//! What is kept of a list from one search to the next.
use crate::kept_hops::KeptHops;
use jump_block::{KeptFronts, KeptRow};

/// What is known of a list from the searches before, over one device. What is written stays, so it is not read again
/// where it is kept: the fronts of some blocks, the hops of the last walk, and the row of cells that was read last.
#[derive(Clone, Copy)]
pub struct KeptSearch {
    pub(crate) fronts: KeptFronts,
    pub(crate) hops: KeptHops,
    pub(crate) row: KeptRow,
}

impl KeptSearch {
    ghost use Rattle.cell_types.specs.Image.{Image};
    ghost use Rattle.jump_index.specs.Keeping.{IsSearchKept};

    /// Nothing is known.
    pub fn new() -> KeptSearch
        ensures { (image : Image) → IsSearchKept image result }
    {
        KeptSearch {
            fronts: KeptFronts::new(),
            hops: KeptHops::new(),
            row: KeptRow::new(),
        }
    }
}
