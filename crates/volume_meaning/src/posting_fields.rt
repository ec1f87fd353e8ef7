//! What a posting says.
use cell_types::RecordCell;

/// What a posting says, in whichever list. Definitions speak of this very type.
#[derive(Clone, Copy, Debug, PartialEq, Eq)]
pub struct PostingFields {
    /// 256 times the slot, plus the posting's ordinal among those of its document in its list; in the time list the
    /// stamp, in seconds.
    pub key: u32,
    /// The greatest ordinal of those postings, at least the key modulo 256; in the time list 255.
    pub last: u8,
    /// The first six bytes of the term's digest; in the time list the four bytes of the slot, and two zeros.
    pub tag: [u8; 6],
}

impl PostingFields {
    ghost use Rattle.std.specs.Prelude.{◌≡◌};
    ghost use Rattle.volume_meaning.specs.Blocks.{posting_record};

    /// The record that stands in a cell for it.
    pub fn to_record(&self) -> RecordCell
        ensures { result ≡ posting_record self.now }
    {
        RecordCell::Posting {
            key: self.key,
            last: self.last,
            tag: self.tag,
        }
    }
}
