//! The keys that a pointer is for.

/// The keys that one pointer of a block is for: those from `low` up to, but not with, `high`. `high` may be past the
/// last key.
#[derive(Clone, Copy, Debug, PartialEq, Eq)]
pub struct Span {
    /// 0 to 7: the span has 16 to this power keys.
    pub level: u8,
    /// 1 to 15: the first digit of the keys' distances from the block's greatest key.
    pub digit: u8,
    /// The least key.
    pub low: u64,
    /// The key behind the greatest.
    pub high: u64,
}

impl Span {
    ghost use Rattle.std.specs.Prelude.{◌≡◌, ◌<◌, ◌+◌, ◌*◌, ◌^◌, ℕ};
    ghost use Rattle.jump_block.specs.Spans.{IsSpan};

    /// The span that begins where this one ends: that of the next pointer.
    pub fn next(self) -> Span
        requires is { (l : ℕ) × IsSpan l self }
        requires more { self.high < 2 ^ 32 }
        ensures is { (l : ℕ) → IsSpan l self → IsSpan l result }
        ensures follows { result.low ≡ self.high }
        ensures place { 15 * result.level + result.digit ≡ 15 * self.level + self.digit + 1 }
    {
        let width = self.high - self.low;
        if self.digit < 15 {
            return Span {
                level: self.level,
                digit: self.digit + 1,
                low: self.high,
                high: self.high + width,
            };
        }
        Span {
            level: self.level + 1,
            digit: 1,
            low: self.high,
            high: self.high + 16 * width,
        }
    }
}
