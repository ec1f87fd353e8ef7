//! What a device in memory keeps a record of.
ghost use Rattle.std.specs.Prelude.{◌≡◌, ◌<◌, ◌^◌};
ghost use Rattle.worm_memory.specs.Memory.{counted_with};

use cell_types::Cell;

/// A change of what stands in the cells, or of what of it is sure.
#[derive(Clone, Copy, Debug, PartialEq, Eq)]
pub enum Change {
    /// A write put this value into a cell that was blank.
    Wrote { at: u32, value: Cell },
    /// Somebody else put this value into a cell that was blank.
    Foreign { at: u32, value: Cell },
    /// A sync made each written cell sure.
    Synced,
    /// A crash took what stood in this cell and was not sure.
    Lost { at: u32 },
    /// After a crash all that stands is sure.
    Crashed,
}

impl Change {
    /// A count of foreign writes, with this change more. It stands still at its end.
    pub(crate) fn counted_with(&self, count: u64) -> u64
        ensures counts { result ≡ counted_with self.now count }
        ensures fits { count < 2 ^ 64 }
    {
        match self {
            Change::Foreign { .. } => count.saturating_add(1),
            Change::Wrote { .. } | Change::Synced | Change::Lost { .. } | Change::Crashed => count,
        }
    }
}
