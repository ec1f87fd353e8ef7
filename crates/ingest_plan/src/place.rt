//! Where the index of a document goes.

use hash_tree::{Level, Open};

/// Where the path of an identifier ends: its bucket goes there.
#[derive(Clone, Copy)]
pub struct PathEnd {
    /// The blank cell that the path ends at.
    pub place: Open,
    /// The node of that place.
    pub level: Level,
}

/// Where the index of a document goes.
#[derive(Clone, Copy)]
pub struct IndexPlace {
    /// The document's slot.
    pub slot: u32,
    /// From this cell on new blocks lie.
    pub edge: u32,
    /// Where the path of its identifier ends.
    pub end: PathEnd,
}
