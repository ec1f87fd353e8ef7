//! The lines of a receipt, read one by one.
ghost use Rattle.std.specs.Prelude.{◌≡◌, ◌≢◌, ◌<◌, ◌≤◌, ◌^◌, ◌↔◌, ◌∷◌, ◌++◌, ℕ, List, decimal, length, slice_index, IfNone, IfSome, IsTrue};
ghost use Rattle.hex.specs.Hex.{encode_lower};
ghost use Rattle.cell_types.specs.Bytes.{IsCell};
ghost use Rattle.cell_types.specs.declared.geometry.TheConstants.{MAX_SLOTS};
ghost use Rattle.volume_meaning.specs.Documents.{IsIdentifier};
ghost use Rattle.receipt_text.specs.Form.{cell_line, end_line, head_line};
ghost use Rattle.receipt_text.specs.Reading.{Lacks};

use crate::ListedCell;
use cell_types::{Cell, MAX_SLOTS};
use document_store::is_identifier;

/// A text, cut at a byte.
#[derive(Clone, Copy)]
pub(crate) struct Cut<'a> {
    /// What stands before the byte.
    pub front: &'a [u8],
    /// What stands behind it.
    pub rest: &'a [u8],
}

/// What the line of a document says.
#[derive(Clone, Copy)]
pub(crate) struct Head<'a> {
    pub slot: u32,
    pub identifier: &'a [u8],
}

/// The text, cut at the first such byte, `None` where it has none.
pub(crate) fn cut_at(byte: u8, text: &[u8]) -> Option<Cut<'_>>
    ensures some { IfSome result (λ cut. text.now ≡ cut.front.now ++ (byte ∷ cut.rest.now)) }
    ensures first { IfSome result (λ cut. Lacks byte cut.front.now) }
    ensures none { IfNone result ((front rest : List ℕ) → text.now ≢ front ++ (byte ∷ rest)) }
{
    let Some(at) = place_of(byte, text) else {
        return None;
    };
    Some(Cut {
        front: &text[..at],
        rest: &text[at + 1..],
    })
}

/// The first place in the text where the byte stands.
fn place_of(byte: u8, text: &[u8]) -> Option<usize>
    ensures some { IfSome result (λ at. (at < length text.now) × (slice_index text.now at ≡ byte)) }
    ensures first { IfSome result (λ at. (i : ℕ) → i < at → slice_index text.now i ≢ byte) }
    ensures none { IfNone result (Lacks byte text.now) }
{
    text.iter().position(|each| *each == byte)
}

/// What the line says, where it is the line of a document.
pub(crate) fn head_of(line: &[u8]) -> Option<Head<'_>>
    ensures some { IfSome result (λ head. line.now ≡ head_line head.slot head.identifier.now) }
    ensures slot { IfSome result (λ head. head.slot < MAX_SLOTS) }
    ensures identifier { IfSome result (λ head. IsIdentifier head.identifier.now) }
    ensures none { IfNone result
        ((slot : ℕ) (id : List ℕ) → slot < MAX_SLOTS → IsIdentifier id → line.now ≢ head_line slot id) }
{
    let Some(words) = line.strip_prefix(b"receipt ") else {
        return None;
    };
    let Some(cut) = cut_at(b' ', words) else {
        return None;
    };
    let Some(slot) = number_of(cut.front) else {
        return None;
    };
    if slot >= MAX_SLOTS {
        return None;
    }
    if !is_identifier(cut.rest) {
        return None;
    }
    Some(Head {
        slot,
        identifier: cut.rest,
    })
}

/// The cell that the line lists, where it is the line of a cell.
fn cell_of(line: &[u8]) -> Option<ListedCell>
    ensures some { IfSome result (λ cell. line.now ≡ cell_line (cell.at, cell.value)) }
    ensures fits { IfSome result (λ cell. cell.at < 2 ^ 32) }
    ensures written { IfSome result (λ cell. IsCell cell.value) }
    ensures none { IfNone result
        ((at : ℕ) (value : List ℕ) → at < 2 ^ 32 → IsCell value → line.now ≢ cell_line (at, value)) }
{
    let Some(cut) = cut_at(b' ', line) else {
        return None;
    };
    let Some(at) = number_of(cut.front) else {
        return None;
    };
    let Some(value) = value_of(cut.rest) else {
        return None;
    };
    Some(ListedCell { at, value })
}

/// The cell that the line lists, where its address is this one or past it, and one of a device of so many cells.
pub(crate) fn cell_within(line: &[u8], next: u32, size: u32) -> Option<ListedCell>
    ensures some { IfSome result (λ cell. line.now ≡ cell_line (cell.at, cell.value)) }
    ensures from { IfSome result (λ cell. next ≤ cell.at) }
    ensures below { IfSome result (λ cell. cell.at < size) }
    ensures written { IfSome result (λ cell. IsCell cell.value) }
    ensures none { IfNone result
        ((at : ℕ) (value : List ℕ) → next ≤ at → at < size → IsCell value → line.now ≢ cell_line (at, value)) }
{
    let Some(cell) = cell_of(line) else {
        return None;
    };
    if cell.at < next {
        return None;
    }
    if cell.at >= size {
        return None;
    }
    Some(cell)
}

/// Whether the line ends a receipt of so many cells.
pub(crate) fn is_end_line(line: &[u8], count: u32) -> bool
    ensures { IsTrue result ↔ (line.now ≡ end_line count) }
{
    let Some(number) = line.strip_prefix(b"end ") else {
        return false;
    };
    number == itoa::Buffer::new().format(count).as_bytes()
}

/// The number that the word spells in decimal digits, without leading zeros.
fn number_of(word: &[u8]) -> Option<u32>
    ensures some { IfSome result (λ n. word.now ≡ decimal n) }
    ensures fits { IfSome result (λ n. n < 2 ^ 32) }
    ensures none { IfNone result ((n : ℕ) → n < 2 ^ 32 → word.now ≢ decimal n) }
{
    let Ok(text) = str::from_utf8(word) else {
        return None;
    };
    let Ok(n) = text.parse::<u32>() else {
        return None;
    };
    // A plus, or a zero before the others, spells the same number, and is not in the form.
    if itoa::Buffer::new().format(n).as_bytes() != word {
        return None;
    }
    Some(n)
}

/// The cell that the word spells, where it is 32 lower-case hexadecimal digits and not all of them are zero.
fn value_of(word: &[u8]) -> Option<Cell>
    ensures some { IfSome result (λ value. word.now ≡ encode_lower value) }
    ensures written { IfSome result IsCell }
    ensures none { IfNone result ((value : List ℕ) → IsCell value → word.now ≢ encode_lower value) }
{
    let mut bytes = [0; 16];
    let Ok(()) = hex::decode_to_slice(word, &mut bytes) else {
        return None;
    };
    let mut printed = [0; 32];
    let Ok(()) = hex::encode_to_slice(bytes, &mut printed) else {
        return None;
    };
    // A capital digit spells the same byte, and is not in the form.
    if printed.as_slice() != word {
        return None;
    }
    let Some(value) = Cell::from_bytes(bytes) else {
        return None;
    };
    let _bytes = value.bytes();
    Some(value)
}
