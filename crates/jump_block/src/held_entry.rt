//! An entry of a block.
use cell_types::{Cell, encode};
use volume_meaning::PostingFields;

/// A posting, and the place of a block at which it stands.
#[derive(Clone, Copy, Debug, PartialEq, Eq)]
pub struct Entry {
    /// The number of the block's first cell.
    pub block: u32,
    /// 0 to 127.
    pub place: u8,
    /// 256 times the slot, and the posting's ordinal among those of its document in this list.
    pub key: u32,
    /// The greatest ordinal of those postings.
    pub last: u8,
    pub tag: [u8; 6],
}

impl Entry {
    ghost use Rattle.std.specs.Prelude.{◌≡◌, ◌<◌, ◌≤◌, ◌+◌, ◌%◌, ◌^◌};
    ghost use Rattle.cell_types.specs.Records.{record_bytes};
    ghost use Rattle.volume_meaning.specs.Blocks.{posting_record};
    ghost use Rattle.jump_block.specs.Entries.{posting_of};

    /// What its posting says.
    pub fn posting(&self) -> PostingFields
        ensures { result ≡ posting_of self.now }
    {
        PostingFields {
            key: self.key,
            last: self.last,
            tag: self.tag,
        }
    }

    /// The cell that the entry stands in.
    pub fn cell(&self) -> Cell
        requires inside { self.now.block + self.now.place < 2 ^ 32 }
        requires well_formed { self.now.key % 256 ≤ self.now.last }
        ensures { result ≡ record_bytes (posting_record (posting_of self.now)) (self.now.block + self.now.place) }
    {
        let at = self.block + u32::from(self.place);
        encode(self.posting().to_record(), at)
    }
}
