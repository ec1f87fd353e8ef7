//! Journal cells by their targets.
ghost use Rattle.tamper_rules.specs.Rules.{Journals};
ghost use Rattle.log_audit.specs.Kept.{image_of_kept};
ghost use Rattle.log_audit.specs.Findings.{IsMetAll};
ghost use Rattle.log_audit.specs.Stored.{IsStored};
ghost use Rattle.slot_audit.specs.Places.{FindsPlace};

use crate::copies::target_at;
use cell_types::Geometry;
use log_audit::{KeptCells, StoredSlot};

/// The place of a stored slot's journal whose cell has this target, where rule 5 is kept: targets rise from place to
/// place, so it is found by bisection, and there is no other one.
pub fn journal_place_of(
    kept: &KeptCells,
    _geometry: &Geometry,
    stored: &StoredSlot,
    cell: u32,
) -> Option<u32>
    requires stored { IsStored _geometry.now (image_of_kept kept.now) stored.now }
    requires met { IsMetAll _geometry.now (image_of_kept kept.now) Journals }
    ensures { FindsPlace (image_of_kept kept.now) stored.now cell result }
{
    let from = stored.journal_at();
    let mut low = 0;
    let mut high = stored.journal;
    while low < high {
        let middle = low + (high - low) / 2;
        let Some(target) = target_at(kept, from + middle) else {
            unreachable!();
        };
        if target == cell {
            return Some(middle);
        }
        if target < cell {
            low = middle + 1;
        } else {
            high = middle;
        }
    }
    None
}
