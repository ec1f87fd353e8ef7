//! The bytes of a document that one cell holds.

/// What a content cell holds: the first `length` of `bytes`, 1 to 15. The other bytes are zero.
#[derive(Clone, Copy, Debug, PartialEq, Eq)]
pub struct Content {
    pub length: u8,
    pub bytes: [u8; 15],
}
