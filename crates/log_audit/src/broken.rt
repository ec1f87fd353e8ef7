//! The first slot at which a rule of the log is broken.
ghost use Rattle.tamper_rules.specs.Rules.{ReserveCells, OutcomeCells, DoneCells};
ghost use Rattle.log_audit.specs.Kept.{image_of_kept};
ghost use Rattle.log_audit.specs.Findings.{FindsBroken};

use crate::kept::KeptCells;
use crate::slot_rules::{keeps_done_rule, keeps_outcome_rule, keeps_reserve_rule};
use cell_types::{Evidence, Geometry};
use tamper_rules::{DONE_CELL, OUTCOME_CELL, RESERVE_CELL};

/// The first reserve cell at which rule 1 is broken.
pub fn first_broken_reserve(kept: &KeptCells, geometry: &Geometry) -> Option<Evidence>
    ensures { FindsBroken geometry.now (image_of_kept kept.now) ReserveCells result }
{
    for slot in 0..geometry.slots() {
        let cell = geometry.reserve_at(slot);
        let Some(found) = kept.at(cell) else {
            continue;
        };
        if !keeps_reserve_rule(kept, geometry, slot) {
            return Some(Evidence {
                rule: RESERVE_CELL,
                cell,
                found,
            });
        }
    }
    None
}

/// The first outcome cell at which rule 2 is broken.
pub fn first_broken_outcome(kept: &KeptCells, geometry: &Geometry) -> Option<Evidence>
    ensures { FindsBroken geometry.now (image_of_kept kept.now) OutcomeCells result }
{
    for slot in 0..geometry.slots() {
        let cell = geometry.outcome_at(slot);
        let Some(found) = kept.at(cell) else {
            continue;
        };
        if !keeps_outcome_rule(kept, geometry, slot) {
            return Some(Evidence {
                rule: OUTCOME_CELL,
                cell,
                found,
            });
        }
    }
    None
}

/// The first done cell at which rule 3 is broken.
pub fn first_broken_done(kept: &KeptCells, geometry: &Geometry) -> Option<Evidence>
    ensures { FindsBroken geometry.now (image_of_kept kept.now) DoneCells result }
{
    for slot in 0..geometry.slots() {
        let cell = geometry.done_at(slot);
        let Some(found) = kept.at(cell) else {
            continue;
        };
        if !keeps_done_rule(kept, geometry, slot) {
            return Some(Evidence {
                rule: DONE_CELL,
                cell,
                found,
            });
        }
    }
    None
}
