//! What a file in memory keeps a record of, and what a failed write of it leaves.

/// A change of the bytes, or of what of them is sure.
#[derive(Clone, Copy)]
pub enum FileChange {
    /// Sixteen bytes were put at this offset.
    Put { from: u64, piece: [u8; 16] },
    /// A sync made all bytes sure.
    Synced,
}

/// What a write that fails leaves of the sixteen bytes at which it fails. One of several places has put the first half of
/// them, fails at the next, and leaves those behind as they were.
#[derive(Clone, Copy, Debug, PartialEq, Eq)]
pub enum Leaving {
    /// None of them: what was there.
    Nothing,
    /// All of them.
    All,
    /// Those for which this is true, and zeros at the other places.
    Part([bool; 16]),
}
