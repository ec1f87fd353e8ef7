//! A block of a list.
ghost use Rattle.std.specs.Prelude.{◌≡◌, ◌<◌, ◌^◌};
ghost use Rattle.list_audit.specs.Numbers.{neighbour_number};

/// How far the numbers of the blocks of a list lie from those of the next.
pub(crate) const LIST_STEP: u64 = 4_294_967_296;

/// How far the neighbour numbers of a block lie from those of the block one cell behind it: there are fewer lists.
pub const BLOCK_STEP: u64 = 65_536;

/// A block, and a list whose pointers lead to it.
#[derive(Clone, Copy, Debug, PartialEq, Eq)]
pub struct ListBlock {
    /// The number of the list; that of the time list is the number of the lists of words.
    pub list: u16,
    /// The number of the block's first cell.
    pub block: u32,
}

impl ListBlock {
    /// A number that no other block and list have, `BLOCK_STEP` times the block plus the list: those of the lists that have
    /// the block are neighbours.
    pub(crate) fn neighbour_number(&self) -> u64
        ensures { result ≡ neighbour_number self.now.list self.now.block }
    {
        u64::from(self.block) * BLOCK_STEP + u64::from(self.list)
    }

    /// The block and the list with this neighbour number.
    pub(crate) fn of_neighbour_number(number: u64) -> ListBlock
        requires { number < 2 ^ 48 }
        ensures { neighbour_number result.list result.block ≡ number }
    {
        ListBlock {
            list: (number % BLOCK_STEP) as u16,
            block: (number / BLOCK_STEP) as u32,
        }
    }
}
