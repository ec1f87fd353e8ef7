//! The numbers of the exercise.

/// How many lists its volume has.
pub const LISTS: u16 = 16;

/// How many words there are, `w0` to `w199`.
pub const DISTINCT_WORDS: u32 = 200;

/// How many words a body has.
pub const BODY_WORDS: u32 = 20;

/// How many cells its device has, whatever the number of documents.
pub const BASE_CELLS: u32 = 8_192;

/// How many more cells for each document.
pub const CELLS_PER_DOCUMENT: u32 = 5_300;
