//! Whether a posting has a trail.
ghost use Rattle.std.specs.Prelude.{◌≡◌, ◌↔◌, ◌<◌, ◌≤◌, ◌+◌, ◌^◌, IsTrue};
ghost use Rattle.volume_meaning.specs.declared.blocks.TheConstants.{BLOCK_CELLS};
ghost use Rattle.jump_block.specs.Entries.{posting_of};
ghost use Rattle.kept_documents.specs.Trails.{AsksTrail, AsksBlock};

use crate::refuted::refuted;
use jump_block::{Entry, Front, KnownFront, first_from_known, pointer, span};
use volume_meaning::PostingFields;
use worm_device::{Failed, View};

/// Whether the posting has a trail from a list's first block, through blocks from the pool's start on.
///
/// # Errors
///
/// `Failed` where a read failed.
pub fn has_trail<V: View>(
    view: &mut V,
    pool: u32,
    head: u32,
    wanted: PostingFields,
) -> Result<bool, Failed>
    requires head { head + BLOCK_CELLS ≤ (V.seen view.old).cells }
    ensures { AsksTrail pool head wanted (V.seen view.old) (V.seen view.new) result }
{
    leads_to(view, pool, wanted, head, 0, 1 << 32, 8)
}

/// Whether the posting has a trail from a block, and the block a key from low up to the bound: a pointer led here whose
/// span this is, of at most 16 to the power of level keys.
fn leads_to<V: View>(
    view: &mut V,
    pool: u32,
    wanted: PostingFields,
    block: u32,
    low: u64,
    bound: u64,
    level: u8,
) -> Result<bool, Failed>
    requires inside { block + BLOCK_CELLS ≤ (V.seen view.old).cells }
    requires narrow { bound ≤ low + 16 ^ level }
    requires from { low ≤ wanted.key }
    requires below { wanted.key < bound }
    requires level { level ≤ 8 }
    ensures { AsksBlock pool block wanted low bound (V.seen view.old) (V.seen view.new) result }
{
    // Place by place, so that no place behind the posting is read.
    let mut known = KnownFront {
        block,
        count: 0,
        greatest: 0,
    };
    let front = match first_from_known(view, &mut known, wanted.key) {
        Ok(front) => front,
        Err(fault) => return refuted(fault),
    };
    let l = match front {
        Front::At(next) => return Ok(is_posting(&next, &wanted)),
        Front::Open(_, _) => return Ok(false),
        Front::Full(l) => l,
    };
    // A trail goes on only behind a pointer in whose span the block that it leads to has a key.
    if u64::from(l) < low {
        return Ok(false);
    }
    let first = span(l, wanted.key);
    let to = match pointer(view, block, first.level, first.digit) {
        Ok(to) => to,
        Err(fault) => return refuted(fault),
    };
    let Some(target) = to else {
        return Ok(false);
    };
    if target < pool {
        return Ok(false);
    }
    if u64::from(target) + 256 > u64::from(view.cells()) {
        return Ok(false);
    }
    leads_to(
        view,
        pool,
        wanted,
        target,
        first.low,
        first.high,
        first.level,
    )
}

/// Whether the entry is this posting.
fn is_posting(entry: &Entry, posting: &PostingFields) -> bool
    ensures { IsTrue result ↔ (posting_of entry.now ≡ posting.now) }
{
    entry.posting() == *posting
}
