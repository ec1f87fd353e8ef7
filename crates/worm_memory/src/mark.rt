//! What a device in memory keeps when a command begins, and of each change beside it.

/// How a command began: what the command before had come to, and how much there had been so far. A device that was
/// just made has had no command, and its numbers are 0.
#[derive(Clone, Copy, Debug, PartialEq, Eq)]
pub struct Mark {
    /// How many steps the command before made. It stands still at its end, as each count of 64 bits here.
    pub steps: u64,
    /// How many device calls the command before made.
    pub calls: u64,
    /// How many changes stood in the record.
    pub changes: usize,
    /// How many calls had failed.
    pub faults: u64,
    /// How many cells somebody else had written.
    pub foreign_writes: u64,
    /// How many reads the device had been asked for.
    pub reads: u64,
}

/// Which call made a change: how many steps and calls its command had made, with this call. A change by hand, as a
/// crash makes it, has those that had been made by then.
#[derive(Clone, Copy)]
pub struct CallNumbers {
    /// How many steps there were.
    pub steps: u64,
    /// How many device calls there were.
    pub calls: u64,
}
