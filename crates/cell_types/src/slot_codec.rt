//! The records of a slot's cells, each asked for by its own kind. Where a cell holds a record of that kind, the answer is
//! what `decode` finds there, at a fraction of the cost; and elsewhere it is `None`.
ghost use Rattle.std.specs.Prelude.{◌≡◌, ◌↔◌, ℕ, drop, slice_index, IfSome, IfNone, IsTrue};
ghost use Rattle.byteorder.specs.Endian.{big_number};
ghost use Rattle.cell_types.specs.declared.record_cell.RecordCell.TheVariants.{Reserve, Commit, Done, Stamp};
ghost use Rattle.cell_types.specs.Records.{IsRecordCell};

use crate::codec::{COMMIT, DONE, RESERVE, STAMP, number_of, two_numbers_of};
use crate::{Cell, MAX_SLOTS, MAX_STORED_BYTES, MIN_STORED_BYTES, address_of};

/// The first cell that a reserve cell of this address reserves, and how many they are.
pub fn decode_reserve(cell: Cell, address: u32) -> Option<(u32, u32)>
    ensures some { IfSome result (λ found. IsRecordCell (Reserve found.0 found.1) address cell) }
    ensures none { IfNone result ((start length : ℕ) → IsRecordCell (Reserve start length) address cell → ⊥) }
{
    if !has_kind(cell, RESERVE, address) {
        return None;
    }
    let (start, length) = two_numbers_of(&cell.bytes()[..12])?;
    if length == 0 {
        return None;
    }
    Some((start, length))
}

/// How many stored bytes a commit cell of this address states, and how many cells of the journal.
pub fn decode_commit(cell: Cell, address: u32) -> Option<(u32, u32)>
    ensures some { IfSome result (λ found. IsRecordCell (Commit found.0 found.1) address cell) }
    ensures none { IfNone result ((bytes journal : ℕ) → IsRecordCell (Commit bytes journal) address cell → ⊥) }
{
    if !has_kind(cell, COMMIT, address) {
        return None;
    }
    let (bytes, journal) = two_numbers_of(&cell.bytes()[..12])?;
    if bytes < MIN_STORED_BYTES {
        return None;
    }
    if MAX_STORED_BYTES < bytes {
        return None;
    }
    if journal == 0 {
        return None;
    }
    Some((bytes, journal))
}

/// The slot that a done cell of this address names.
pub fn decode_done(cell: Cell, address: u32) -> Option<u32>
    ensures some { IfSome result (λ slot. IsRecordCell (Done slot) address cell) }
    ensures none { IfNone result ((slot : ℕ) → IsRecordCell (Done slot) address cell → ⊥) }
{
    if !has_kind(cell, DONE, address) {
        return None;
    }
    let slot = number_of(&cell.bytes()[..12])?;
    if MAX_SLOTS <= slot {
        return None;
    }
    Some(slot)
}

/// The seconds of a stamp cell of this address.
pub fn decode_stamp(cell: Cell, address: u32) -> Option<u32>
    ensures some { IfSome result (λ seconds. IsRecordCell (Stamp seconds) address cell) }
    ensures none { IfNone result ((seconds : ℕ) → IsRecordCell (Stamp seconds) address cell → ⊥) }
{
    if !has_kind(cell, STAMP, address) {
        return None;
    }
    let seconds = number_of(&cell.bytes()[..12])?;
    Some(seconds)
}

/// Whether the cell has this kind, and this address.
fn has_kind(cell: Cell, kind: u8, address: u32) -> bool
    ensures { IsTrue result ↔ (slice_index cell 0 ≡ kind) × (big_number 4 (drop 12 cell) ≡ address) }
{
    cell.bytes()[0] == kind && address_of(cell) == address
}
