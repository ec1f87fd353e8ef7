//! Laws: what the definitions mean together. Each is a function that does nothing and whose contract is the law.
ghost use Rattle.plan_laws.specs.Standing.{IndexKeepsStanding, SettledIndexesStand};

/// The lists and the tree of a settled volume stand as planning an index asks, with keys of slots below the horizon.
pub fn settled_indexes_stand()
    ensures { SettledIndexesStand }
{}

/// Behind a document's index they stand so again, for the slot behind.
pub fn index_keeps_standing()
    ensures { IndexKeepsStanding }
{}
