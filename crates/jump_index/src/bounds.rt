//! Where the blocks of a list may lie.

/// The cells in which a block may lie that a pointer leads to: from the pool's start up to, but not with, the edge.
#[derive(Clone, Copy)]
pub struct Bounds {
    pub pool: u32,
    pub edge: u32,
}
