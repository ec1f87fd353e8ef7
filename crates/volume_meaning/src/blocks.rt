//! How a posting block is laid out.

/// How many cells a posting block has.
pub const BLOCK_CELLS: u32 = 256;

/// How many of them are places for postings.
pub const ENTRY_PLACES: u8 = 128;

/// The first place of a pointer, behind those for postings.
pub const FIRST_POINTER: u32 = 128;

/// How many places for pointers it has. Those behind them stay blank.
pub const POINTER_PLACES: u32 = 120;
