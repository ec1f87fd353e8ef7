//! The pointers of a full block, from the last to the first.
ghost use Rattle.std.specs.Prelude.{◌≡◌, ◌<◌, ◌≤◌, ◌+◌, ◌*◌, ◌^◌, ℕ};
ghost use Rattle.volume_meaning.specs.declared.blocks.TheConstants.{BLOCK_CELLS};
ghost use Rattle.jump_block.specs.Spans.{IsSpan};
ghost use Rattle.jump_insertion.specs.Hopping.{FindsGreatest};

use cell_types::Fault;
use jump_block::{Span, pointer, span};
use worm_device::View;

/// The greatest written pointer of a full block, with the greatest key l, whose span begins below the bound.
pub(crate) fn greatest_pointer<V: View>(
    view: &mut V,
    block: u32,
    l: u32,
    bound: u64,
) -> Result<Option<(Span, u32)>, Fault>
    requires inside { block + BLOCK_CELLS ≤ (V.seen view.old).cells }
    requires bound { bound ≤ 2 ^ 32 }
    ensures { FindsGreatest block l bound (V.seen view.old) (V.seen view.new) result }
{
    if bound <= u64::from(l) + 1 {
        return Ok(None);
    }
    let mut now = span(l, (bound - 1) as u32);
    loop {
        if let Some(target) = pointer(view, block, now.level, now.digit)? {
            return Ok(Some((now, target)));
        }
        if now.level == 0 && now.digit == 1 {
            return Ok(None);
        }
        now = before(now);
    }
}

/// The span that ends where this one begins, unless this is the first.
fn before(span: Span) -> Span
    requires is { (l : ℕ) × IsSpan l span }
    requires more { 2 ≤ 15 * span.level + span.digit }
    ensures is { (l : ℕ) → IsSpan l span → IsSpan l result }
    ensures ends { result.high ≡ span.low }
    ensures place { 15 * result.level + result.digit + 1 ≡ 15 * span.level + span.digit }
{
    let width = span.high - span.low;
    if span.digit > 1 {
        return Span {
            level: span.level,
            digit: span.digit - 1,
            low: span.low - width,
            high: span.low,
        };
    }
    Span {
        level: span.level - 1,
        digit: 15,
        low: span.low - width / 16,
        high: span.low,
    }
}
