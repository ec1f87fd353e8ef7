//! Neighbouring cells of a document part, read as a row.
ghost use Rattle.std.specs.Prelude.{◌≡◌, ◌<◌, ◌≤◌, ◌+◌, ◌*◌, ◌/◌, ℕ, false, IfNone, IfSome, IsTrue, Some, length, take};
ghost use Rattle.append_file.specs.Pieces.{IsNoPiece};
ghost use Rattle.append_file.specs.Rows.{GivesPiece, HasNoPiece, HoldsRow, IsFull, MovesFull, PutsPiece, RowReadEnds};
ghost use Rattle.append_file.specs.declared.row.TheConstants.{ROW_BYTES, ROW_CELLS};
ghost use Rattle.volume_meaning.specs.Slots as slots;
ghost use Rattle.worm_device.specs.ReadBytes.{cell_bytes};
ghost use Rattle.worm_device.specs.Views.{Viewed};

use crate::CONTENT_BYTES;
use crate::piece::{ContentFault, piece_in};
use cell_types::Cell;
use std::simd::prelude::*;
use worm_device::View;

/// How many cells are read at once, at most.
pub(crate) const ROW_CELLS: u32 = 1_024;

/// How many bytes of a document they hold, at most.
pub const ROW_CONTENT: usize = 15_360;

/// How many bytes they have, which is room for the bytes of a document that they hold.
pub const ROW_BYTES: usize = 16_384;

/// The first byte of a content cell of fifteen bytes.
const FULL_CELL: u8 = 31;

/// Reads so many cells of a part of so many bytes in the cells from start on, those from this place on, in one call. Puts
/// their bytes one behind another, and answers how many.
pub(crate) fn read_cells<V: View>(
    view: &mut V,
    start: u32,
    bytes: u32,
    place: u32,
    count: u32,
    into: &mut [u8; ROW_BYTES],
) -> Result<usize, ContentFault>
    requires some { 1 ≤ count }
    requires few { count ≤ ROW_CELLS }
    requires places { place + count ≤ slots.cells_for bytes }
    requires inside { start + slots.cells_for bytes ≤ (V.seen view.old).cells }
    ensures viewed { Viewed (V.seen view.old) (V.seen view.new) }
    ensures reads { (V.seen view.new).base.reads ≤ (V.seen view.old).base.reads + count }
    ensures ends { RowReadEnds start bytes place count (V.seen view.old) (V.seen view.new) into.new result }
{
    // That its cells are fewer than 2 to the 32 is known to those who ask.
    let _cells = view.cells();
    let row = &mut into[..16 * count as usize];
    view.read_bytes(start + place, row)?;
    let Some(length) = gather(bytes, place, row) else {
        return Err(ContentFault::Broken);
    };
    Ok(length)
}

/// Moves the bytes that a row of cells holds to its front, one behind another, and answers how many, if each cell is
/// whole. The first cell has this place, in a part of so many bytes.
fn gather(bytes: u32, place: u32, row: &mut [u8]) -> Option<usize>
    requires some { 1 ≤ length row.old / 16 }
    requires few { length row.old ≤ ROW_BYTES }
    requires places { place + length row.old / 16 ≤ slots.cells_for bytes }
    ensures some { IfSome result (λ n. HoldsRow bytes place (length row.old / 16) row.old (take n row.new)) }
    ensures count { IfSome result (λ n. (length (take n row.new) ≡ n) × (n ≤ length row.new)) }
    ensures none { IfNone result (HasNoPiece bytes place (length row.old / 16) row.old) }
{
    let last = row.len() / 16 - 1;
    // A cell behind which the part has another one is full.
    for k in 0..last {
        if !move_full(k, row) {
            return None;
        }
    }
    let more = move_piece(bytes, place, last, row)?;
    Some(15 * last + more)
}

/// Moves the bytes of cell k of a row to their place among those that the row holds, if the cell is full, and says
/// whether it is. Another cell comes behind it, and none of those changes.
fn move_full(k: usize, row: &mut [u8]) -> bool
    requires behind { 16 * k + 17 ≤ length row.old }
    requires few { length row.old ≤ ROW_BYTES }
    ensures size { length row.new ≡ length row.old }
    ensures moved { IsTrue result → MovesFull k row.old row.new }
    ensures other { result ≡ false → IsFull (cell_bytes row.old k) → ⊥ }
{
    if row[16 * k] != FULL_CELL {
        return false;
    }
    // The last of the sixteen lanes is the first byte of the next cell, and the bytes of that cell go over it.
    let held = u8x16::from_slice(&row[16 * k + 1..]);
    held.copy_to_slice(&mut row[15 * k..]);
    true
}

/// Moves what cell k of a row holds to its place among the bytes that the row holds, and answers how many bytes it is,
/// if the cell is whole.
fn move_piece(bytes: u32, place: u32, k: usize, row: &mut [u8]) -> Option<usize>
    requires inside { 16 * k + 16 ≤ length row.old }
    requires few { length row.old ≤ ROW_BYTES }
    requires place { 15 * (place + k) < bytes }
    ensures size { length row.new ≡ length row.old }
    ensures some { IfSome result (PutsPiece bytes (place + k) (cell_bytes row.old k) (15 * k) row.old row.new) }
    ensures others { IfSome result (λ n. (other : ℕ) → k < other
        → cell_bytes row.new other ≡ cell_bytes row.old other) }
    ensures none { IfNone result (IsNoPiece bytes (place + k) (Some (cell_bytes row.old k))) }
{
    let mut cell = [0; 16];
    cell.copy_from_slice(&row[16 * k..16 * k + 16]);
    give_piece(
        &cell,
        bytes,
        place + k as u32,
        &mut row[15 * k..15 * k + CONTENT_BYTES as usize],
    )
}

/// Puts the bytes that a cell of this place holds into the room, and answers how many, if the cell is whole.
fn give_piece(cell: &[u8; 16], bytes: u32, place: u32, room: &mut [u8]) -> Option<usize>
    requires place { 15 * place < bytes }
    requires room { length room.old ≡ 15 }
    ensures size { length room.new ≡ 15 }
    ensures some { IfSome result (GivesPiece bytes place cell.now room.new) }
    ensures none { IfNone result (IsNoPiece bytes place (Some cell.now)) }
{
    let held = piece_in(Cell::from_bytes(*cell)?, bytes, place)?;
    room.copy_from_slice(&held.bytes);
    Some(usize::from(held.length))
}
