//! Laws of the record of changes: what a crash is in it, which cells it could take, what it tells of what was; and of
//! commands: that they go by their plan, and find the room that they need.
ghost use Rattle.worm_memory.specs.Device.{ACommandHasRoom, ACrashHasRoom, APlanIsKept, TheCountIsRecorded};
ghost use Rattle.worm_memory.specs.Losses.{ACrashKeeps, UnsureCells};
ghost use Rattle.worm_memory.specs.Memory.{BeginningsTell, TheRecordTells};
ghost use Rattle.worm_memory.specs.OwnChanges.{NoneIsUncounted, OwnChangesTakeSteps, PlannedWritesComeFirst};

/// A crash, as a row of changes, leaves what is kept and what is sure, and all of that is sure then.
pub fn a_crash_keeps()
    ensures { ACrashKeeps }
{}

/// What a crash could take, as it is read off the record, are the cells that are written and not sure, each once.
pub fn unsure_cells()
    ensures { UnsureCells }
{}

/// What stood once is told by the record.
pub fn the_record_tells()
    ensures { TheRecordTells }
{}

/// What is kept from a command's beginning on are the marks and the plan.
pub fn beginnings_tell()
    ensures { BeginningsTell }
{}

/// The count of foreign writes is how many of the record's changes are somebody else's.
pub fn the_count_is_recorded()
    ensures { TheCountIsRecorded }
{}

/// Once a command goes by its plan, faults and foreign writes are those of the plan, whatever calls are made.
pub fn a_plan_is_kept()
    ensures { APlanIsKept }
{}

/// Where a command goes by its plan, no call of it finds too little room.
pub fn a_command_has_room()
    ensures { ACommandHasRoom }
{}

/// Where the record has room for one change more than there are cells, a crash finds room.
pub fn a_crash_has_room()
    ensures { ACrashHasRoom }
{}

/// A command that goes by its plan changes something itself at most once in a step.
pub fn own_changes_take_steps()
    ensures { OwnChangesTakeSteps }
{}

/// Where somebody else was to write a cell before a moment, what stands there was planned, or was written early.
pub fn planned_writes_come_first()
    ensures { PlannedWritesComeFirst }
{}

/// A command since whose beginning nobody else has written counts nobody else.
pub fn none_is_uncounted()
    ensures { NoneIsUncounted }
{}
