//! Laws: what the words of the contracts mean together. Each is a function that does nothing and whose contract is
//! the law.
ghost use Rattle.hash_tree.specs.InsertionLaws.{PassedIsOnPath, TakenIsBroken};

/// A node with a cell that is planned for somebody else breaks the rule of child cells.
pub fn taken_is_broken()
    ensures { TakenIsBroken }
{}

/// A path that is passed goes by the digest's half bytes.
pub fn passed_is_on_path()
    ensures { PassedIsOnPath }
{}
