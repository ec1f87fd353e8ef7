//! What shows how far a command is.

/// What is counted.
#[derive(Clone, Copy, Debug, PartialEq, Eq)]
pub enum Work {
    /// The bytes of a file, as they are read.
    Reading,
    /// The checks of slots in an audit, of which each slot below the horizon has two.
    Checking,
    /// The documents of a volume, as they are copied.
    Copying,
}

/// Something that shows how far a command is. It has no ghost state, and its call no contract, since nothing that a
/// clause speaks of depends on what is shown: a meter that shows nothing, or something false, breaks no promise.
pub trait Meter {
    /// So much of this work is done, of so much. What is done is at most the whole.
    fn show(&mut self, work: Work, done: u64, of: u64);
}

/// A meter that shows nothing.
#[derive(Clone, Copy, Drop)]
pub struct Silent;

impl Meter for Silent {
    fn show(&mut self, _work: Work, _done: u64, _of: u64) {}
}
