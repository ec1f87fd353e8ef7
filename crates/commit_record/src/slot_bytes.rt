//! A slot by the bytes of its four cells, which are the first of a row. Where it is done they are compared as numbers,
//! and no cell is decoded.
ghost use Rattle.std.specs.Prelude.{◌≡◌, ◌<◌, ◌≤◌, ◌+◌, ◌*◌, ◌++◌, IfSome, IsTrue, drop, length, replicate, take};
ghost use Rattle.byteorder.specs.Endian.{big_bytes};
ghost use Rattle.cell_types.specs.Layout as layout;
ghost use Rattle.cell_types.specs.declared.geometry.TheConstants.{MAX_SLOTS};
ghost use Rattle.worm_device.specs.ReadBytes.{cell_bytes};
ghost use Rattle.commit_record.specs.SlotBytes.{IsSlotRowOf, HoldsNumber, IsDoneByBytes, IsFramedAsDone, IsHeldIn, NamesCells, NamesDocument, NamesStamp};

use byteorder::{BigEndian, ByteOrder, LittleEndian};
use cell_types::{Cell, Geometry, MAX_STORED_BYTES, MIN_STORED_BYTES};

/// How many bytes the four cells of a slot have.
pub const SLOT_BYTES: usize = 64;

// The kinds of a done slot's cells, as their first bytes.
const RESERVE: u8 = 2;

const COMMIT: u64 = 3;

const DONE: u64 = 5;

const STAMP: u64 = 10;

/// The stamp of a slot that is done, in seconds, by the bytes of its four cells, the first of a row that was read
/// before. It is `None` where they make another state or none, or hold no stamp. The first cell of the pool comes along,
/// since it is the same for each slot. Reads nothing.
#[inline]
pub fn done_stamp(geometry: &Geometry, pool_at: u32, slot: u32, bytes: &[u8]) -> Option<u32>
    requires slot { slot < geometry.now.slots }
    requires pool { pool_at ≡ layout.pool_at geometry.now }
    requires four { 64 ≤ length bytes.now }
    ensures { IfSome result (λ seconds. IsDoneByBytes geometry.now slot bytes.now seconds) }
{
    // Known of a layout once it is asked for.
    let _slots = geometry.slots();
    if !is_framed(slot, bytes) {
        return None;
    }
    let length = reserved_length(geometry, pool_at, bytes)?;
    if !names_document(length, bytes) {
        return None;
    }
    let seconds = named_stamp(bytes)?;
    Some(seconds)
}

/// What the four cells of a slot hold, by their bytes, the first of a row that was read before.
pub fn cells_of_slot(bytes: &[u8]) -> [Option<Cell>; 4]
    requires { 64 ≤ length bytes.now }
    ensures { IsSlotRowOf bytes.now result }
{
    let reserve = cell_in(bytes, 0);
    let outcome = cell_in(bytes, 1);
    let done = cell_in(bytes, 2);
    let spare = cell_in(bytes, 3);
    [reserve, outcome, done, spare]
}

/// What the cell of this place in a row holds.
fn cell_in(bytes: &[u8], place: usize) -> Option<Cell>
    requires { 16 * place + 16 ≤ length bytes.now }
    ensures { IsHeldIn result (cell_bytes bytes.now place) }
{
    let mut cell = [0; 16];
    cell.copy_from_slice(&bytes[16 * place..16 * place + 16]);
    Cell::from_bytes(cell)
}

/// Whether a slot's bytes have the kinds, the numbers of its cells, its own and the zeros that they have where it is
/// done.
#[inline]
fn is_framed(slot: u32, bytes: &[u8]) -> bool
    requires slot { slot < MAX_SLOTS }
    requires four { 64 ≤ length bytes.now }
    ensures { IsTrue result → IsFramedAsDone slot bytes.now }
{
    if bytes[0] != RESERVE {
        return false;
    }
    // Behind the number of a cell stands the kind of the next one.
    let reserve_at = 4 + 4 * u64::from(slot);
    if !holds_word(bytes, 9, 256 * reserve_at + COMMIT) {
        return false;
    }
    if !holds_word(bytes, 25, 256 * (reserve_at + 1) + DONE) {
        return false;
    }
    if !holds_slot(bytes, slot) {
        return false;
    }
    if !holds_word(bytes, 41, 256 * (reserve_at + 2) + STAMP) {
        return false;
    }
    holds_word(bytes, 56, reserve_at + 3)
}

/// How many cells of the pool the reserve cell names, if they are some.
#[inline]
fn reserved_length(geometry: &Geometry, pool_at: u32, bytes: &[u8]) -> Option<u32>
    requires pool { pool_at ≡ layout.pool_at geometry.now }
    requires four { 64 ≤ length bytes.now }
    ensures { IfSome result (λ count. NamesCells geometry.now bytes.now count) }
{
    let start = number_at(bytes, 1);
    let count = number_at(bytes, 5);
    if u64::from(geometry.cells()) < u64::from(start) + u64::from(count) {
        return None;
    }
    if start < pool_at {
        return None;
    }
    Some(count)
}

/// Whether the outcome cell names a document and a journal that fit into so many cells.
#[inline]
fn names_document(cells: u32, bytes: &[u8]) -> bool
    requires four { 64 ≤ length bytes.now }
    ensures { IsTrue result → NamesDocument bytes.now cells }
{
    let size = number_at(bytes, 17);
    if size < MIN_STORED_BYTES {
        return false;
    }
    if MAX_STORED_BYTES < size {
        return false;
    }
    // So many cells the journal has behind its first one. Where it has none at all, these are more than any pool has.
    let more = number_at(bytes, 21).wrapping_sub(1);
    has_room(size, cells, more)
}

/// Whether a document of so many bytes, fifteen a cell, and a journal of a cell and so many more fit into so many
/// cells. Where the journal alone is too long, the room is negative. A product takes less than a quotient.
#[inline]
fn has_room(size: u32, cells: u32, more: u32) -> bool
    ensures { IsTrue result → size + 15 + 15 * more ≤ 15 * cells }
{
    let room = i64::from(cells) - i64::from(more);
    i64::from(size) + 15 <= 15 * room
}

/// The seconds that the spare cell names.
#[inline]
fn named_stamp(bytes: &[u8]) -> Option<u32>
    requires four { 64 ≤ length bytes.now }
    ensures { IfSome result (λ seconds. NamesStamp bytes.now seconds) }
{
    if number_at(bytes, 53) != 0 {
        return None;
    }
    Some(number_at(bytes, 49))
}

/// The number in the four bytes from this place on.
#[inline]
fn number_at(bytes: &[u8], at: usize) -> u32
    requires { at + 4 ≤ length bytes.now }
    ensures { HoldsNumber bytes.now at result }
{
    BigEndian::read_u32(&bytes[at..])
}

/// Whether the eight bytes from this place on are this number's, the highest first. It is the number that is turned,
/// as it is the same for whatever stands there.
#[inline]
fn holds_word(bytes: &[u8], at: usize, number: u64) -> bool
    requires { at + 8 ≤ length bytes.now }
    ensures { IsTrue result → take 8 (drop at bytes.now) ≡ big_bytes 8 number }
{
    LittleEndian::read_u64(&bytes[at..]) == number.swap_bytes()
}

/// Whether the numbers of the third cell are a slot's and zero. Only half of the word has to be turned.
#[inline]
fn holds_slot(bytes: &[u8], slot: u32) -> bool
    requires { 41 ≤ length bytes.now }
    ensures { IsTrue result → take 8 (drop 33 bytes.now) ≡ big_bytes 4 slot ++ replicate 4 0 }
{
    LittleEndian::read_u64(&bytes[33..]) == u64::from(slot.swap_bytes())
}
