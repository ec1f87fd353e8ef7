//! Whom a planned cell is for.

/// The list or the tree, by its first block's or its root's number, and the block or node that a planned cell lies in.
#[derive(Clone, Copy, Debug, PartialEq, Eq)]
pub struct Owner {
    /// The number of the first cell of the list's first block, or of the root node.
    pub head: u32,
    /// The number of the first cell of the block or node.
    pub base: u32,
}
