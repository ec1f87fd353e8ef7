//! Records as cells, and cells as records.
ghost use Rattle.std.specs.Prelude.{◌≡◌, ◌≢◌, ◌≤◌, ℕ, length, ◌∷◌, ◌++◌, take, drop, replicate, slice_index, IfSome, IfNone, Some};
ghost use Rattle.byteorder.specs.Endian.{big_number, big_bytes};
ghost use Rattle.cell_types.specs.declared.record_cell.RecordCell.{RecordCell};
ghost use Rattle.cell_types.specs.Records.{IsWellFormed, IsRecordCell, Fits, body_bytes, record_bytes, RecordsAreOne, NoRecordIsContent};

use crate::{Cell, RecordCell, is_well_formed};
use byteorder::{BigEndian, ByteOrder};

// The kinds of records, as the first byte of a cell.
const VOLUME: u8 = 1;

pub(crate) const RESERVE: u8 = 2;

pub(crate) const COMMIT: u8 = 3;

const ABANDON: u8 = 4;

pub(crate) const DONE: u8 = 5;

const POSTING: u8 = 6;

const JUMP: u8 = 7;

const BUCKET: u8 = 8;

const CHILD: u8 = 9;

pub(crate) const STAMP: u8 = 10;

/// The cell of a record that stands in the cell of this number.
pub fn encode(value: RecordCell, address: u32) -> Cell
    requires { IsWellFormed value address }
    ensures same { result ≡ record_bytes value address }
    ensures cell { IsRecordCell value address result }
{
    with_address(body_of(value), address)
}

/// The record that the cell holds at this address, or `None` where it is the cell of no record that
/// is well-formed there. Whatever it answers, `encode` gives the cell back.
pub fn decode(cell: Cell, address: u32) -> Option<RecordCell>
    ensures some { IfSome result (λ r. IsRecordCell r address cell) }
    ensures none { IfNone result ((r : RecordCell) → IsRecordCell r address cell → ⊥) }
    ensures one { (r : RecordCell) → IsRecordCell r address cell → result ≡ Some r }
{
    if address_of(cell) != address {
        return None;
    }
    let value = record_of(&cell.bytes()[..12])?;
    if !is_well_formed(&value, address) {
        return None;
    }
    Some(value)
}

/// The posting that the cell holds at this address, or `None` where it is no posting that is well-formed there. It is
/// what `decode` answers, and cheaper.
pub fn posting_at(cell: Cell, address: u32) -> Option<RecordCell>
    ensures { IfSome result (λ r. IsRecordCell r address cell) }
{
    let all = cell.bytes();
    if all[0] != POSTING {
        return None;
    }
    if address != address_of(cell) {
        return None;
    }
    let value = posting_of(&all[..12]);
    if is_well_formed(&value, address) {
        return Some(value);
    }
    None
}

/// The cell's last four bytes, where a record has its address.
pub fn address_of(cell: Cell) -> u32
    ensures { result ≡ big_number 4 (drop 12 cell) }
{
    BigEndian::read_u32(&cell.bytes()[12..])
}

/// The cell of a kind and a body, and of an address behind them.
fn with_address(body: [u8; 12], address: u32) -> Cell
    requires { 1 ≤ slice_index body 0 }
    ensures { result ≡ body ++ big_bytes 4 address }
{
    let mut all = [0; 16];
    BigEndian::write_u32(&mut all[12..], address);
    all[..12].copy_from_slice(&body);
    Cell::of_kind(all)
}

/// Kind and body of a record.
fn body_of(value: RecordCell) -> [u8; 12]
    ensures fits { Fits value }
    ensures body { result ≡ body_bytes value }
    ensures kind { 1 ≤ slice_index result 0 }
{
    match value {
        RecordCell::Volume {
            version,
            slots,
            lists,
            cells,
        } => volume_body(version, slots, lists, cells),
        RecordCell::Reserve { start, length } => two_numbers(RESERVE, start, length),
        RecordCell::Commit { bytes, journal } => two_numbers(COMMIT, bytes, journal),
        RecordCell::Abandon => [ABANDON, 0, 0, 0, 0, 0, 0, 0, 0, 0, 0, 0],
        RecordCell::Done { slot } => number_and_bytes(DONE, slot, [0; 7]),
        RecordCell::Posting { key, last, tag } => posting_body(key, last, tag),
        RecordCell::Jump { target } => number_and_bytes(JUMP, target, [0; 7]),
        RecordCell::Bucket { slot, fingerprint } => number_and_bytes(BUCKET, slot, fingerprint),
        RecordCell::Child { target } => number_and_bytes(CHILD, target, [0; 7]),
        RecordCell::Stamp { seconds } => number_and_bytes(STAMP, seconds, [0; 7]),
    }
}

/// Kind and body of a volume cell.
fn volume_body(version: u8, slots: u32, lists: u16, cells: u32) -> [u8; 12]
    ensures { result ≡ (1 ∷ version ∷ big_bytes 4 slots) ++ big_bytes 2 lists ++ big_bytes 4 cells }
{
    let mut body = [0; 12];
    body[0] = VOLUME;
    body[1] = version;
    BigEndian::write_u32(&mut body[2..], slots);
    BigEndian::write_u16(&mut body[6..], lists);
    BigEndian::write_u32(&mut body[8..], cells);
    body
}

/// A kind, two numbers and three zeros.
fn two_numbers(kind: u8, first: u32, second: u32) -> [u8; 12]
    ensures { result ≡ (kind ∷ big_bytes 4 first) ++ big_bytes 4 second ++ replicate 3 0 }
{
    let mut body = [0; 12];
    body[0] = kind;
    BigEndian::write_u32(&mut body[1..], first);
    BigEndian::write_u32(&mut body[5..], second);
    body
}

/// A kind, a number and seven bytes.
fn number_and_bytes(kind: u8, number: u32, bytes: [u8; 7]) -> [u8; 12]
    ensures { result ≡ (kind ∷ big_bytes 4 number) ++ bytes }
{
    let mut body = [0; 12];
    body[0] = kind;
    BigEndian::write_u32(&mut body[1..], number);
    body[5..].copy_from_slice(&bytes);
    body
}

/// Kind and body of a posting.
fn posting_body(key: u32, last: u8, tag: [u8; 6]) -> [u8; 12]
    ensures { result ≡ (6 ∷ big_bytes 4 key) ++ (last ∷ tag) }
{
    let mut body = [0; 12];
    body[0] = POSTING;
    BigEndian::write_u32(&mut body[1..], key);
    body[5] = last;
    body[6..].copy_from_slice(&tag);
    body
}

/// The record of this kind and body, where there is one.
fn record_of(body: &[u8]) -> Option<RecordCell>
    requires { length body.now ≡ 12 }
    ensures some { IfSome result (λ r. Fits r × (body_bytes r ≡ body.now)) }
    ensures none { IfNone result ((r : RecordCell) → body_bytes r ≢ body.now) }
{
    match body[0] {
        VOLUME => Some(volume_of(body)),
        RESERVE => {
            let (start, length) = two_numbers_of(body)?;
            Some(RecordCell::Reserve { start, length })
        }
        COMMIT => {
            let (bytes, journal) = two_numbers_of(body)?;
            Some(RecordCell::Commit { bytes, journal })
        }
        ABANDON => {
            if body[1..] != [0; 11] {
                return None;
            }
            Some(RecordCell::Abandon)
        }
        DONE => {
            let slot = number_of(body)?;
            Some(RecordCell::Done { slot })
        }
        POSTING => Some(posting_of(body)),
        JUMP => {
            let target = number_of(body)?;
            Some(RecordCell::Jump { target })
        }
        BUCKET => Some(bucket_of(body)),
        CHILD => {
            let target = number_of(body)?;
            Some(RecordCell::Child { target })
        }
        STAMP => {
            let seconds = number_of(body)?;
            Some(RecordCell::Stamp { seconds })
        }
        _ => None,
    }
}

/// The volume record of a body of its kind.
fn volume_of(body: &[u8]) -> RecordCell
    requires count { length body.now ≡ 12 }
    requires kind { slice_index body.now 0 ≡ 1 }
    ensures fits { Fits result }
    ensures body { body_bytes result ≡ body.now }
{
    RecordCell::Volume {
        version: body[1],
        slots: number_at(&body[2..]),
        lists: short_number_at(&body[6..]),
        cells: number_at(&body[8..]),
    }
}

/// The posting of a body of its kind.
fn posting_of(body: &[u8]) -> RecordCell
    requires count { length body.now ≡ 12 }
    requires kind { slice_index body.now 0 ≡ 6 }
    ensures fits { Fits result }
    ensures body { body_bytes result ≡ body.now }
{
    let key = number_at(&body[1..]);
    let mut tag = [0; 6];
    tag.copy_from_slice(&body[6..]);
    RecordCell::Posting {
        key,
        last: body[5],
        tag,
    }
}

/// The bucket of a body of its kind.
fn bucket_of(body: &[u8]) -> RecordCell
    requires count { length body.now ≡ 12 }
    requires kind { slice_index body.now 0 ≡ 8 }
    ensures fits { Fits result }
    ensures body { body_bytes result ≡ body.now }
{
    let slot = number_at(&body[1..]);
    let mut fingerprint = [0; 7];
    fingerprint.copy_from_slice(&body[5..]);
    RecordCell::Bucket { slot, fingerprint }
}

/// The number of a body that has one number and zeros.
pub(crate) fn number_of(body: &[u8]) -> Option<u32>
    requires { length body.now ≡ 12 }
    ensures some { IfSome result (λ n.
        body.now ≡ (slice_index body.now 0 ∷ big_bytes 4 n) ++ replicate 7 0) }
    ensures none { IfNone result ((kind n : ℕ) → (kind ∷ big_bytes 4 n) ++ replicate 7 0 ≢ body.now) }
{
    let (number, zeros) = two_numbers_of(body)?;
    if zeros != 0 {
        return None;
    }
    Some(number)
}

/// The numbers of a body that has two numbers and zeros.
pub(crate) fn two_numbers_of(body: &[u8]) -> Option<(u32, u32)>
    requires { length body.now ≡ 12 }
    ensures some { IfSome result (λ ns.
        body.now ≡ (slice_index body.now 0 ∷ big_bytes 4 ns.0) ++ big_bytes 4 ns.1 ++ replicate 3 0) }
    ensures none { IfNone result ((kind m n : ℕ) →
        (kind ∷ big_bytes 4 m) ++ big_bytes 4 n ++ replicate 3 0 ≢ body.now) }
{
    if body[9] != 0 {
        return None;
    }
    if short_number_at(&body[10..]) != 0 {
        return None;
    }
    Some((number_at(&body[1..]), number_at(&body[5..])))
}

/// The number in the first four bytes.
fn number_at(bytes: &[u8]) -> u32
    requires { 4 ≤ length bytes.now }
    ensures { big_bytes 4 result ≡ take 4 bytes.now }
{
    BigEndian::read_u32(bytes)
}

/// The number in the first two bytes.
fn short_number_at(bytes: &[u8]) -> u16
    requires { 2 ≤ length bytes.now }
    ensures { big_bytes 2 result ≡ take 2 bytes.now }
{
    BigEndian::read_u16(bytes)
}

/// A law: a cell is that of one record, at one address.
pub fn records_are_one()
    ensures { RecordsAreOne }
{}

/// A law: no cell is a record's and a content cell.
pub fn no_record_is_content()
    ensures { NoRecordIsContent }
{}
