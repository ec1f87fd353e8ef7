//! Laws of tilings.
ghost use Rattle.slot_audit.specs.Walks.{WalksTell};

/// A law: rule 15 is kept just where a walk over the tiles comes to the end.
pub fn walks_tell()
    ensures { WalksTell }
{}
