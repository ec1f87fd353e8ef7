//! Moments and bytes, as the lines of rows have them.
use row_files::number;
use std::alloc::AllocError;
use worm_memory::Moment;

/// A moment, `step N` or `call N`, and the text behind it.
pub fn moment_and_rest(text: &str) -> Option<(Moment, &str)> {
    let (kind, rest) = text.split_once(' ')?;
    let (digits, rest) = rest.split_once(' ').unwrap_or((rest, ""));
    let at = number(digits)?;
    match kind {
        "step" => Some((Moment::Step(at), rest)),
        "call" => Some((Moment::Call(at), rest)),
        _ => None,
    }
}

/// Whether a text is pairs of hexadecimal digits.
pub fn is_hexadecimal(text: &str) -> bool {
    let mut count = 0_usize;
    for digit in text.chars() {
        if digit.to_digit(16).is_none() {
            return false;
        }
        count = count.saturating_add(1);
    }
    count % 2 == 0
}

/// Puts the bytes of pairs of hexadecimal digits behind these.
pub fn push_hexadecimal(bytes: &mut Vec<u8>, text: &str) -> Result<(), AllocError> {
    let mut high = None;
    for digit in text.chars() {
        let value = digit.to_digit(16).unwrap_or(0);
        match high.take() {
            None => high = Some(value),
            Some(first) => bytes.push(
                (first.saturating_mul(16).saturating_add(value) % 256) as u8,
            )?,
        }
    }
    Ok(())
}
