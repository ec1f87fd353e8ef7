//! The records that a cell may hold, and when one is well-formed.
ghost use Rattle.std.specs.Prelude.{◌≡◌, ◌↔◌, IsTrue};
ghost use Rattle.cell_types.specs.Records.{IsWellFormed};

use crate::{FIRST_VERSION, Geometry, MAX_SLOTS, NEWEST_VERSION};

/// The least number of stored bytes of a document: the identifier's length and one byte of it.
pub const MIN_STORED_BYTES: u32 = 2;

/// The greatest number of stored bytes of a document: the identifier's length, an identifier of 200
/// bytes and a body of 1,048,576.
pub const MAX_STORED_BYTES: u32 = 1_048_777;

/// A record, without the address of the cell that it stands in.
#[derive(Clone, Copy, PartialEq, Eq)]
pub enum RecordCell {
    /// Kind 1, in cell 0: the version of the format, the numbers of slots and lists, and of the
    /// device's cells.
    Volume {
        version: u8,
        slots: u32,
        lists: u16,
        cells: u32,
    },
    /// Kind 2: a slot reserves `length` cells from cell `start` on.
    Reserve {
        start: u32,
        length: u32,
    },
    /// Kind 3: a slot's document has so many stored bytes, and its journal so many cells, at least one.
    Commit {
        bytes: u32,
        journal: u32,
    },
    /// Kind 4: nothing comes of the slot's reservation.
    Abandon,
    /// Kind 5: the slot of this number is done.
    Done {
        slot: u32,
    },
    /// Kind 6: a term's tag in a slot's document; `key` is 256 times the slot and the tag's ordinal,
    /// and `last` is the greatest ordinal of this document in this list.
    Posting {
        key: u32,
        last: u8,
        tag: [u8; 6],
    },
    /// Kind 7: a posting block leads to the block at `target`.
    Jump {
        target: u32,
    },
    /// Kind 8: a slot's document stands in the hash tree, by the first bytes of its identifier's digest.
    Bucket {
        slot: u32,
        fingerprint: [u8; 7],
    },
    /// Kind 9: a hash node leads to the node at `target`.
    Child {
        target: u32,
    },
    /// Kind 10: a slot's document has this stamp.
    Stamp {
        seconds: u32,
    },
}

/// Whether the record may stand in the cell of this number.
pub fn is_well_formed(value: &RecordCell, address: u32) -> bool
    ensures { IsTrue result ↔ IsWellFormed value.now address }
{
    match *value {
        RecordCell::Volume {
            version,
            slots,
            lists,
            cells,
        } => FIRST_VERSION <= version
            && version <= NEWEST_VERSION
            && address == 0
            && Geometry::new(slots, lists, cells, version).is_some(),
        RecordCell::Reserve { length, .. } => length >= 1,
        RecordCell::Commit { bytes, journal } => {
            MIN_STORED_BYTES <= bytes && bytes <= MAX_STORED_BYTES && journal >= 1
        }
        RecordCell::Done { slot } | RecordCell::Bucket { slot, .. } => slot < MAX_SLOTS,
        RecordCell::Posting { key, last, .. } => key % 256 <= u32::from(last),
        RecordCell::Abandon
        | RecordCell::Jump { .. }
        | RecordCell::Child { .. }
        | RecordCell::Stamp { .. } => true,
    }
}
