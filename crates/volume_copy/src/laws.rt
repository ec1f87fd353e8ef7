//! A law: what the words of the contracts mean together.
ghost use Rattle.volume_copy.specs.Laws.{PairsAreOne};

/// Which pairs a copy answers the documents of the two volumes say.
pub fn pairs_are_one()
    ensures { PairsAreOne }
{}
