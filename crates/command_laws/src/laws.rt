//! Laws: what the definitions mean together. Each is a function that does nothing and whose contract is the law.
ghost use Rattle.command_laws.specs.Laws.{CommandsLeaveHeld, FindsTellHeld};

/// Every command but an ingest leaves the documents that were held, and a steady device.
pub fn commands_leave_what_is_held()
    ensures { CommandsLeaveHeld }
{}

/// A find tells of just the documents that were held.
pub fn finds_tell_what_is_held()
    ensures { FindsTellHeld }
{}
