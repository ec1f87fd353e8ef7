//! A law: what a word of the contract means, over all images.
ghost use Rattle.ingest_engine.specs.Stamps.{GreatestStampsAreOne};

/// The done slots below one have one greatest stamp at most.
pub fn greatest_stamps_are_one()
    ensures { GreatestStampsAreOne }
{}
