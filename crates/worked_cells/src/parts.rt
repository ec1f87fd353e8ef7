//! Numbers, cells and bytes, as the lines of rows have them.
use cell_types::Cell;
use std::alloc::{AllocError, Global};

/// A number in decimal digits.
pub fn number(text: &str) -> Option<u32> {
    text.parse().ok()
}

/// The first word, and the text behind it.
pub fn word_and_rest(text: &str) -> (&str, &str) {
    text.split_once(' ').unwrap_or((text, ""))
}

/// A number, and the text behind it.
pub fn counted(text: &str) -> Option<(u32, &str)> {
    let (digits, rest) = word_and_rest(text);
    Some((number(digits)?, rest))
}

/// Two numbers.
pub fn two_numbers(text: &str) -> Option<(u32, u32)> {
    let (one, other) = counted(text)?;
    Some((one, number(other)?))
}

/// The cell of a number in hexadecimal digits, the least in its last byte.
pub fn cell(text: &str) -> Option<Cell> {
    cell_of(u128::from_str_radix(text, 16).ok()?)
}

/// An address and a cell.
pub fn address_and_cell(text: &str) -> Option<(u32, Cell)> {
    let (at, digits) = counted(text)?;
    Some((at, cell(digits)?))
}

/// The cell of this number, `None` for 0.
pub fn cell_of(number: u128) -> Option<Cell> {
    Cell::from_bytes(number.to_be_bytes())
}

/// The numbers of a text, if it is no more than numbers.
pub fn numbers(alloc: Global, text: &str) -> Result<Option<Vec<u32>>, AllocError> {
    let mut all = Vec::new(alloc);
    for digits in text.split_whitespace() {
        let Some(at) = number(digits) else {
            return Ok(None);
        };
        all.push(at)?;
    }
    Ok(Some(all))
}

/// The cells of a text, if it is no more than cells.
pub fn cells(alloc: Global, text: &str) -> Result<Option<Vec<Cell>>, AllocError> {
    let mut all = Vec::new(alloc);
    for digits in text.split_whitespace() {
        let Some(value) = cell(digits) else {
            return Ok(None);
        };
        all.push(value)?;
    }
    Ok(Some(all))
}
