//! Tiles that follow one another, gone through from the last to the first.
ghost use Rattle.std.specs.Prelude.{◌≡◌, ◌<◌, ◌≤◌, ◌↔◌, ℕ, Some, IsTrue};
ghost use Rattle.std.specs.Ordering.{nat_cmp};
ghost use Rattle.std.specs.BTreeMap.{get};
ghost use Rattle.slot_audit.specs.Tables.{Follow, LieWithin};

use std::collections::BTreeMap;

/// Whether these tiles follow one another from one cell up to another, where they begin between them.
pub(crate) fn follow(tiles: BTreeMap<u32, u32>, from: u32, to: u32) -> bool
    requires order { from ≤ to }
    requires within { LieWithin (λ t. get nat_cmp tiles t) from to }
    ensures { IsTrue result ↔ Follow (λ t. get nat_cmp tiles t) to from }
{
    let mut left = tiles;
    let mut behind = to;
    while let Some((target, size)) = left.pop_last() {
        if behind - target != size {
            return false;
        }
        behind = target;
    }
    behind == from
}
