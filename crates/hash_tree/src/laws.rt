//! A law: what the words of the contract mean together, over all images.
ghost use Rattle.hash_tree.specs.Laws.{StepsAreOne};

/// In an image a step from a level has one answer, and ends at one level.
pub fn a_step_has_one_answer()
    ensures { StepsAreOne }
{}
