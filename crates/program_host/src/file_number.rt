//! Which file of the host one is.
ghost use Rattle.std.specs.Prelude.{◌≡◌, ◌<◌, ◌⊎◌, ◌↔◌, IsTrue};

/// Which file of the host one is: two paths lead to one file where both numbers are the same.
#[derive(Clone, Copy, PartialEq, Eq)]
pub struct FileNumber {
    pub(crate) device: u64,
    pub(crate) inode: u64,
}

impl FileNumber {
    /// Whether this file is held before the other one, by whoever holds both.
    pub fn is_before(&self, other: &FileNumber) -> bool
        ensures { IsTrue result ↔ (self.now.device < other.now.device)
            ⊎ ((self.now.device ≡ other.now.device) × (self.now.inode < other.now.inode)) }
    {
        self.device < other.device || self.device == other.device && self.inode < other.inode
    }
}
