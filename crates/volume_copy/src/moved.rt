//! Which slot a document was copied to.

/// A document was copied from one slot of the source to one of the target, or was found there already.
#[derive(Clone, Copy)]
pub struct Moved {
    /// Its slot in the volume that is copied.
    pub old: u32,
    /// Its slot in the volume that is copied to.
    pub new: u32,
}
