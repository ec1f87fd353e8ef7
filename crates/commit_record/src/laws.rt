//! Laws: what the words of the contracts mean together, over all images.
ghost use Rattle.commit_record.specs.Laws.{NoStateBreaksARule, StatesAreOne};

/// A slot is in one state at most in an image, and in none where its cells are no state.
pub fn a_slot_has_one_state()
    ensures { StatesAreOne }
{}

/// Where a slot's cells are no state, the rule is broken at the cell that is named.
pub fn no_state_breaks_a_rule()
    ensures { NoStateBreaksARule }
{}
