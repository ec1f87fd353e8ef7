//! Sixteen places of a row at once, and sixty-four.
ghost use Rattle.std.specs.Prelude.{◌≡◌, ◌<◌, ◌≤◌, ◌+◌, ℕ, bit_or, bit_xor, false, length, map, slice_index};
ghost use Rattle.std.specs.Int.{bit_at};
ghost use Rattle.std.specs.Simd.Lanes.{chunk};
ghost use Rattle.volume_meaning.specs.Words.{lowered};
ghost use Rattle.word_reader.specs.declared.lanes.TheConstants.{CASE_BIT, LANES, WIDE_LANES};

use std::simd::prelude::*;

/// How many places are looked at in one step.
pub(crate) const LANES: usize = 16;

/// How many are looked at in one step where none is the term's.
pub(crate) const WIDE_LANES: usize = 64;

/// The bit by which the small letters of ASCII differ from their capitals.
const CASE_BIT: u8 = 0x20;

/// In each lane, how the byte of the row differs from this one, but for the bit of case.
fn differences(row: &[u8], at: usize, byte: u8) -> u8x16
    requires { at + LANES ≤ length row.now }
    ensures { result ≡ map (λ x. bit_xor (bit_or x CASE_BIT) (bit_or byte CASE_BIT)) (chunk at LANES row.now) }
{
    let bytes = u8x16::from_slice(&row[at..]) | u8x16::splat(CASE_BIT);
    bytes ^ u8x16::splat(byte | CASE_BIT)
}

/// At which of sixteen places these two bytes may stand, in either case and the second so many bytes behind the first:
/// the first place is the lowest bit.
fn places_found(row: &[u8], at: usize, first: u8, behind: usize, second: u8) -> u64
    requires { at + behind + LANES ≤ length row.now }
    ensures few { (k : ℕ) → LANES ≤ k → bit_at result k ≡ 0 }
    ensures found { (k : ℕ) → k < LANES → lowered (slice_index row.now (at + k)) ≡ first
        → lowered (slice_index row.now (at + behind + k)) ≡ second → bit_at result k ≡ 1 }
{
    let ones = differences(row, at, first);
    let others = differences(row, at + behind, second);
    (ones | others).simd_eq(u8x16::splat(0)).to_bitmask()
}

/// How many of sixteen places come before one at which these two bytes may stand: all where there is none.
pub(crate) fn places_before(row: &[u8], at: usize, first: u8, behind: usize, second: u8) -> usize
    requires { at + behind + LANES ≤ length row.now }
    ensures most { result ≤ LANES }
    ensures none { (k : ℕ) → k < result → lowered (slice_index row.now (at + k)) ≡ first
        → lowered (slice_index row.now (at + behind + k)) ≡ second → ⊥ }
{
    let found = places_found(row, at, first, behind, second);
    if found == 0 {
        return LANES;
    }
    found.trailing_zeros() as usize
}

/// Whether these two bytes may stand at one of sixty-four places.
pub(crate) fn are_found(row: &[u8], at: usize, first: u8, behind: usize, second: u8) -> bool
    requires { at + behind + WIDE_LANES ≤ length row.now }
    ensures { result ≡ false → (k : ℕ) → k < WIDE_LANES → lowered (slice_index row.now (at + k)) ≡ first
        → lowered (slice_index row.now (at + behind + k)) ≡ second → ⊥ }
{
    let one = places_found(row, at, first, behind, second);
    let two = places_found(row, at + LANES, first, behind, second);
    let three = places_found(row, at + 2 * LANES, first, behind, second);
    let four = places_found(row, at + 3 * LANES, first, behind, second);
    // One test for all of them: most rows have none.
    one | two | three | four != 0
}
