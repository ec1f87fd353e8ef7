//! The limits that clauses cite by a constant's name are these numbers. A document that tells one takes it from here.
ghost use Rattle.record_top.specs.Limits.{LimitsOfCommands, LimitsOfScripts, LimitsOfVolumes};

/// How large a volume and its documents may be, and which versions there are.
pub fn limits_of_volumes()
    ensures { LimitsOfVolumes }
{}

/// What commands take, and what a find reads at most.
pub fn limits_of_commands()
    ensures { LimitsOfCommands }
{}

/// What a script may ask for.
pub fn limits_of_scripts()
    ensures { LimitsOfScripts }
{}
