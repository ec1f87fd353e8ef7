//! Words that are numbers, and words that are options.
ghost use Rattle.std.specs.Prelude.{◌↔◌, ℕ, IsTrue, IfSome, IfNone};
ghost use Rattle.command_line.specs.Words.{AreSeconds, IsNoOption, IsNumber, IsNumberUpTo};

/// The greatest number of digits of a number.
const MAX_DIGITS: usize = 10;

/// Whether the word is empty, or begins with a hyphen.
pub(crate) fn is_option(word: &[u8]) -> bool
    ensures { IsTrue result ↔ (IsNoOption word.now → ⊥) }
{
    word.is_empty() || word[0] == b'-'
}

/// The number that the word stands for, where it is 1 to 10 digits and the number from 1 to the most.
pub(crate) fn number_up_to(most: u32, word: &[u8]) -> Option<u32>
    ensures some { IfSome result (IsNumberUpTo most word.now) }
    ensures none { IfNone result ((n : ℕ) → IsNumberUpTo most word.now n → ⊥) }
{
    let Some(n) = number_of(word) else {
        return None;
    };
    if n == 0 || n > u64::from(most) {
        return None;
    }
    Some(n as u32)
}

/// The seconds that the word stands for, where it is 1 to 10 digits and they have 32 bits.
pub(crate) fn seconds_of(word: &[u8]) -> Option<u32>
    ensures some { IfSome result (AreSeconds word.now) }
    ensures none { IfNone result ((seconds : ℕ) → AreSeconds word.now seconds → ⊥) }
{
    let Some(seconds) = number_of(word) else {
        return None;
    };
    if seconds > u64::from(u32::MAX) {
        return None;
    }
    Some(seconds as u32)
}

/// The number that the word stands for, where it is 1 to 10 digits.
fn number_of(word: &[u8]) -> Option<u64>
    ensures some { IfSome result (IsNumber word.now) }
    ensures none { IfNone result ((n : ℕ) → IsNumber word.now n → ⊥) }
{
    if word.is_empty() || word.len() > MAX_DIGITS {
        return None;
    }
    let mut n: u64 = 0;
    for digit in word {
        if !digit.is_ascii_digit() {
            return None;
        }
        n = 10 * n + u64::from(*digit - b'0');
    }
    Some(n)
}
