//! What is inserted, and where.

use jump_block::Span;
use volume_meaning::PostingFields;

/// A place of a block.
#[derive(Clone, Copy)]
pub(crate) struct Spot {
    /// The number of the block's first cell.
    pub block: u32,
    /// 0 to 127.
    pub place: u8,
}

/// Where the blocks of a list lie.
#[derive(Clone, Copy)]
pub(crate) struct ListBlocks {
    /// The number of the first block's first cell.
    pub head: u32,
    /// From this cell on the other blocks lie.
    pub floor: u32,
}

/// A walk along a list, to where a key is to be inserted.
#[derive(Clone, Copy)]
pub(crate) struct ListWalk {
    /// Where the list's blocks lie.
    pub list: ListBlocks,
    /// Before this cell they end: free cells begin there.
    pub next: u32,
    /// The key that is to be inserted.
    pub key: u32,
}

/// A block with no blank entry.
#[derive(Clone, Copy)]
pub(crate) struct FullBlock {
    /// The number of the block's first cell.
    pub block: u32,
    /// The key of its last entry, from which the spans of its pointers go out.
    pub greatest_key: u32,
}

/// A posting on its way into a list.
#[derive(Clone, Copy)]
pub(crate) struct Insertion {
    /// Where the list's blocks lie.
    pub list: ListBlocks,
    /// The posting.
    pub entry: PostingFields,
}

/// A block that an insertion has come to.
#[derive(Clone, Copy)]
pub(crate) struct Visit {
    /// The number of the block's first cell.
    pub block: u32,
    /// The keys for which the way leads there.
    pub within: Span,
}

/// The home of a pointer that is to be planned: a full block, whose pointer for a key is blank.
#[derive(Clone, Copy)]
pub(crate) struct Home {
    /// The block, and the keys for which the way leads there.
    pub visit: Visit,
    /// The key of its last entry.
    pub greatest_key: u32,
    /// The keys for which the pointer is.
    pub to: Span,
}

/// A pointer of a block that is written.
#[derive(Clone, Copy)]
pub(crate) struct WrittenPointer {
    /// The number of the block's first cell.
    pub block: u32,
    /// The keys for which the pointer is.
    pub span: Span,
    /// The number of the first cell of the block that it leads to.
    pub target: u32,
}

/// A search for the tail of a list.
#[derive(Clone, Copy)]
pub(crate) struct TailSearch {
    /// The walk that came to a blank pointer.
    pub walk: ListWalk,
    /// The first cell of the block with that pointer, from which the search goes out.
    pub home: u32,
}

/// A full block on the way to the tail, which goes on behind its pointers for keys below a bound.
#[derive(Clone, Copy)]
pub(crate) struct TailStep {
    /// The block.
    pub full: FullBlock,
    /// The bound, at most 2^32.
    pub bound: u64,
    /// The bound is at most 16 to this power from the block's greatest key.
    pub level: u8,
}
