//! The limits of a script.

/// The greatest number of cells of a script's device.
pub const MAX_SCRIPT_CELLS: u32 = 65_536;

/// The greatest number of events.
pub const MAX_EVENTS: usize = 1_000;

/// The greatest number of words of a query.
pub const MAX_WORDS: usize = 8;

/// The greatest number of moments that fail in one command.
pub const MAX_FAILING: usize = 16;

/// The greatest number of foreign writes in one command.
pub const MAX_FOREIGN_WRITES: usize = 64;

/// The greatest number of cells that a crash is told to keep.
pub const MAX_KEPT: usize = 65_536;

/// The greatest number of a moment.
pub const MAX_MOMENT: u32 = 1_000_000;
