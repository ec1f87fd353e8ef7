//! Content cells, which hold the bytes of a document, 1 to 15 in each.
ghost use Rattle.std.specs.Prelude.{◌≡◌, ◌≤◌, ◌-◌, ◌++◌, ℕ, List, length, replicate, take, IfSome, IfNone};
ghost use Rattle.cell_types.specs.Contents.{ContentsAreOne, content_bytes, IsContentCell};

use crate::{Cell, Content};

/// The first byte of a content cell, without the count of its bytes.
const CONTENT: u8 = 16;

/// The greatest number of bytes of a document in one cell.
const MOST_BYTES: u8 = 15;

/// The content cell of these bytes.
pub fn content(bytes: &[u8]) -> Cell
    requires some { 1 ≤ length bytes.now }
    requires most { length bytes.now ≤ 15 }
    ensures { result ≡ content_bytes bytes.now }
{
    let mut all = [0; 16];
    all[0] = CONTENT + bytes.len() as u8;
    all[1..bytes.len() + 1].copy_from_slice(bytes);
    Cell::of_kind(all)
}

/// What the cell holds, where it is a content cell: where its first byte is 16 and a count from 1 to
/// 15, and nothing but zeros stand behind so many bytes.
pub fn content_of(cell: Cell) -> Option<Content>
    ensures some { IfSome result (λ held. IsContentCell (take held.length held.bytes) cell) }
    ensures most { IfSome result (λ held. held.length ≤ 15) }
    ensures zeros { IfSome result (λ held.
        held.bytes ≡ take held.length held.bytes ++ replicate (15 - held.length) 0) }
    ensures none { IfNone result ((bytes : List ℕ) → IsContentCell bytes cell → ⊥) }
{
    let all = cell.bytes();
    let kind = all[0];
    if kind <= CONTENT || kind > CONTENT + MOST_BYTES {
        return None;
    }
    let length = kind - CONTENT;
    let mut bytes = [0; 15];
    bytes.copy_from_slice(&all[1..]);
    if length == MOST_BYTES {
        return Some(Content { length, bytes });
    }
    // Only zeros may stand behind the counted bytes, as in the cell that is made of them.
    if content(&bytes[..usize::from(length)]) == cell {
        return Some(Content { length, bytes });
    }
    None
}

/// A law: a cell holds one row of bytes.
pub fn contents_are_one()
    ensures { ContentsAreOne }
{}
