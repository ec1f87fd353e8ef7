//! Laws: what the words of the contracts mean together, over all states. Each is a function that does
//! nothing and whose contract is the law.
ghost use Rattle.worm_device.specs.Laws.{ACrashInACall, ACrashNow, CallsCompose, CallsElapse, CrashesKeepWhatWasSure, PlannedCellsShow, ViewsCompose, ViewsRest};

/// Calls one after another keep what each of them keeps, and a row of no calls keeps it too.
pub fn calls_compose()
    ensures { CallsCompose }
{}

/// Over each row of calls what else a crash could leave has all that was sure before it, and nothing that
/// does not stand after it; and what a crash could leave before it could still be left.
pub fn calls_elapse()
    ensures { CallsElapse }
{}

/// A crash at any moment of a row of calls leaves all that was sure before it, and nothing that does not stand
/// after it, whoever else wrote.
pub fn crashes_keep_what_was_sure()
    ensures { CrashesKeepWhatWasSure }
{}

/// A crash in the middle of a call may leave each image that has what was sure at its entry, and nothing that does
/// not stand at its exit.
pub fn a_crash_in_a_call()
    ensures { ACrashInACall }
{}

/// Reads through a view one after another keep what each of them keeps, and a row of no reads keeps it too.
pub fn views_compose()
    ensures { ViewsCompose }
{}

/// What a view shows, and what stands below it, is the same after a row of calls in which nobody else wrote.
pub fn views_rest()
    ensures { ViewsRest }
{}

/// A crash at the present moment leaves an image that has all that is sure and nothing that does not stand,
/// and can leave each such image.
pub fn a_crash_now()
    ensures { ACrashNow }
{}

/// An image that has all that stands below what is planned, and each planned cell, has all that the view shows.
pub fn planned_cells_show()
    ensures { PlannedCellsShow }
{}
