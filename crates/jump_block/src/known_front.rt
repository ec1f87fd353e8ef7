//! How far the front of a block is known, and where a search in it ends.
use crate::Entry;

/// The first `count` places of a block are known to be of its front. What is known once stays true, whatever is
/// written into blank cells.
#[derive(Clone, Copy)]
pub struct KnownFront {
    /// The number of the block's first cell.
    pub block: u32,
    /// How many places, 0 to 128.
    pub count: u8,
    /// The key of the last of them. It says nothing where there are none.
    pub greatest: u32,
}

/// Where a search in a block ends.
#[derive(Clone, Copy, Debug, PartialEq, Eq)]
pub enum Front {
    /// The first entry with a key at or past the asked one.
    At(Entry),
    /// The first blank place, and the greatest key before it, where there is one.
    Open(u8, Option<u32>),
    /// The greatest key of a full block.
    Full(u32),
}
