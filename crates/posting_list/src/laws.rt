//! Laws of lists of terms.
ghost use Rattle.posting_list.specs.Laws.{KeptAreOwed};

/// A law: a term's list must not pass the slot of a kept document that has the term's tag.
pub fn kept_are_owed()
    ensures { KeptAreOwed }
{}
