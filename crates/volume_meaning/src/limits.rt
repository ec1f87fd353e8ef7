//! The limits of a document.

/// The greatest number of bytes of an identifier.
pub const MAX_IDENTIFIER_BYTES: usize = 200;

/// The greatest number of bytes of a body.
pub const MAX_BODY_BYTES: usize = 1_048_576;
