//! Whether a posting has a trail.
ghost use Rattle.std.specs.Prelude.{◌<◌, ◌↔◌, IfNone, IfSome, IsTrue};
ghost use Rattle.cell_types.specs.Layout.{all_lists, list_at};
ghost use Rattle.tamper_rules.specs.Rules.{Entries, Pointers};
ghost use Rattle.log_audit.specs.Kept.{image_of_kept};
ghost use Rattle.log_audit.specs.Findings.{IsMetAll};
ghost use Rattle.list_audit.specs.Trails.{HasTrail};

use crate::listed::ListBlock;
use crate::places::LAST_ENTRY;
use crate::steps::{Step, step_from};
use cell_types::Geometry;
use log_audit::KeptCells;
use volume_meaning::PostingFields;

/// How many blocks a trail has at most: a span has 16 to the power of its level keys, levels are 0 to 7, and they fall
/// from one block to the next.
const MOST_BLOCKS: u8 = 9;

/// The block in which a trail has ended, and the place behind the posting's.
#[derive(Clone, Copy)]
pub(crate) struct TrailEnd {
    block: u32,
    behind: u32,
}

impl TrailEnd {
    /// No trail has ended yet. Cell 0 is of no block.
    pub(crate) fn none() -> TrailEnd {
        TrailEnd {
            block: 0,
            behind: 0,
        }
    }

    /// Where a greater key of the same list probably stands in a block: behind the last posting, or behind a full front.
    fn guess_in(&self, block: u32) -> u32 {
        if block == self.block {
            return self.behind;
        }
        LAST_ENTRY
    }

    /// The end of the next trail, in this block.
    fn next_in(&self, block: u32) -> TrailEnd {
        let behind = if block == self.block {
            self.behind.saturating_add(1)
        } else {
            1
        };
        TrailEnd { block, behind }
    }
}

/// Whether a posting has a trail from the first block of a list, where rules 8 and 10 are kept.
pub fn has_trail(kept: &KeptCells, geometry: &Geometry, list: u16, posting: &PostingFields) -> bool
    requires list { list < all_lists geometry.now }
    requires entries { IsMetAll geometry.now (image_of_kept kept.now) Entries }
    requires pointers { IsMetAll geometry.now (image_of_kept kept.now) Pointers }
    ensures { IsTrue result ↔ HasTrail geometry.now (image_of_kept kept.now) posting.now (list_at geometry.now list) }
{
    let Some(_end) = end_of_trail(kept, geometry, list, posting, TrailEnd::none()) else {
        return false;
    };
    true
}

/// Where the trail of a posting ends, if it has one. Where the last trail ended is looked first.
pub(crate) fn end_of_trail(
    kept: &KeptCells,
    geometry: &Geometry,
    list: u16,
    posting: &PostingFields,
    last: TrailEnd,
) -> Option<TrailEnd>
    requires list { list < all_lists geometry.now }
    requires entries { IsMetAll geometry.now (image_of_kept kept.now) Entries }
    requires pointers { IsMetAll geometry.now (image_of_kept kept.now) Pointers }
    ensures some { IfSome result (λ end.
        HasTrail geometry.now (image_of_kept kept.now) posting.now (list_at geometry.now list)) }
    ensures none { IfNone result
        (HasTrail geometry.now (image_of_kept kept.now) posting.now (list_at geometry.now list) → ⊥) }
{
    // Known of a key once it is read: it is below 16^8.
    let _key = posting.key;
    let mut block = geometry.list_at(list);
    for _turn in 0..MOST_BLOCKS {
        let guess = last.guess_in(block);
        match step_from(kept, geometry, &ListBlock { list, block }, posting, guess) {
            Step::Found => return Some(last.next_in(block)),
            Step::Missing => return None,
            Step::On(target) => {
                block = target;
            }
        }
    }
    unreachable!()
}
