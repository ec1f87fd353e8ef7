//! How a node of the tree of identifiers is laid out.

/// How many cells a node has.
pub const NODE_CELLS: u32 = 32;

/// How many of them are buckets, one for each half byte. As many child cells follow.
pub const NODE_BUCKETS: u32 = 16;
