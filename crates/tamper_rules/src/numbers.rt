//! The numbers of the rules, as evidence of tampering carries them.

/// A reserve cell: it reserves cells of the pool, where the slot before ends, and that slot has ended.
pub const RESERVE_CELL: u8 = 1;

/// An outcome cell: an abandon cell, or a commit cell of no more cells than the slot reserves.
pub const OUTCOME_CELL: u8 = 2;

/// A done cell: it names its slot, whose outcome is a commit cell.
pub const DONE_CELL: u8 = 3;

/// The commit cell of a slot: its cells spell a document.
pub const BROKEN_DOCUMENT: u8 = 4;

/// A journal cell: a copy of an index cell, in rising order.
pub const BROKEN_JOURNAL: u8 = 5;

/// A journal cell: its target holds the same.
pub const OTHER_TARGET: u8 = 6;

/// A cell where none is to stand.
pub const STRAY_CELL: u8 = 7;

/// A cell of a posting block: a posting with a greater key than the one before, and nothing behind the pointers.
pub const BLOCK_OUT_OF_ORDER: u8 = 8;

/// A posting: it is one of its slot's document.
pub const FAKE_POSTING: u8 = 9;

/// A jump pointer: it leads to a block of its span, in the block part of one slot.
pub const LOST_POINTER: u8 = 10;

/// A bucket of a hash node: it is that of its slot's identifier, on its path.
pub const FAKE_BUCKET: u8 = 11;

/// A child cell of a hash node: it leads to a node of its own, in the block part of a slot.
pub const LOST_CHILD: u8 = 12;

/// The done cell of a slot: each posting of its document has a trail.
pub const MISSING_TRAIL: u8 = 13;

/// The done cell of a slot: its document has a hash trail, and no lower slot has its identifier.
pub const MISSING_PATH: u8 = 14;

/// The commit cell of a done slot: the blocks and nodes that its journal leads to tile its block part.
pub const UNTILED_BLOCKS: u8 = 15;
