//! Numbers and cells, as the lines of rows have them.
use cell_types::Cell;

/// A number in decimal digits.
pub fn number(text: &str) -> Option<u32> {
    text.parse().ok()
}

/// A number, and the text behind it.
pub fn counted(text: &str) -> Option<(u32, &str)> {
    let (digits, text) = text.split_once(' ')?;
    Some((number(digits)?, text))
}

/// Two numbers, with a space between.
pub fn two_numbers(text: &str) -> Option<(u32, u32)> {
    let (one, other) = counted(text)?;
    Some((one, number(other)?))
}

/// The cell of 32 hexadecimal digits, between which there may be underscores for the reader.
pub fn cell(text: &str) -> Option<Cell> {
    let mut digits = 0_u32;
    let mut value = 0_u128;
    for digit in text.chars() {
        if digit != '_' {
            value = value
                .checked_mul(16)?
                .checked_add(u128::from(digit.to_digit(16)?))?;
            digits = digits.saturating_add(1);
        }
    }
    if digits != 32 {
        return None;
    }
    Cell::from_bytes(value.to_be_bytes())
}

/// An address and the cell there, with a space between.
pub fn address_and_cell(text: &str) -> Option<(u32, Cell)> {
    let (at, digits) = counted(text)?;
    Some((at, cell(digits)?))
}
