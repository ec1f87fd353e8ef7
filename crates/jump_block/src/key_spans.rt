//! Which span a key lies in.
ghost use Rattle.std.specs.Prelude.{◌≡◌, ◌<◌, ◌≤◌, ◌*◌, ◌^◌};
ghost use Rattle.jump_block.specs.Spans.{IsSpan};

use crate::Span;

/// The span in which the key `k` lies, counted from a block's greatest key `l`.
pub fn span(l: u32, k: u32) -> Span
    requires { l < k }
    ensures is { IsSpan l result }
    ensures low { result.low ≤ k }
    ensures high { k < result.high }
{
    let distance = u64::from(k - l);
    let (level, width) = first_digit(distance);
    let digit = distance / width;
    let low = u64::from(l) + digit * width;
    Span {
        level,
        digit: digit as u8,
        low,
        high: low + width,
    }
}

/// At which level a distance has its first digit to the base 16, and how many keys a span of that level has.
fn first_digit(distance: u64) -> (u8, u64)
    requires some { 1 ≤ distance }
    requires below { distance < 2 ^ 32 }
    ensures levels { result.0 < 8 }
    ensures width { result.1 ≡ 16 ^ result.0 }
    ensures low { result.1 ≤ distance }
    ensures high { distance < 16 * result.1 }
{
    if distance < 0x10 {
        (0, 1)
    } else if distance < 0x100 {
        (1, 0x10)
    } else if distance < 0x1000 {
        (2, 0x100)
    } else if distance < 0x1_0000 {
        (3, 0x1000)
    } else if distance < 0x10_0000 {
        (4, 0x1_0000)
    } else if distance < 0x100_0000 {
        (5, 0x10_0000)
    } else if distance < 0x1000_0000 {
        (6, 0x100_0000)
    } else {
        (7, 0x1000_0000)
    }
}
