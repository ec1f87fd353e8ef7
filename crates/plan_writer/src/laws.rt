//! What a crash in the middle of an ingest leaves of its slot, where nobody else writes. Each law is a function that
//! does nothing and whose contract is the law.
ghost use Rattle.plan_writer.specs.CrashLaws.{CommitsFollowDocuments, CrashesLeaveWholeSlots, SlotsKeepStates};

/// A commit cell is left with the stamp, the whole document and the journal alone.
pub fn commits_follow_documents()
    ensures { CommitsFollowDocuments }
{}

/// The slot is left in a state.
pub fn slots_keep_states()
    ensures { SlotsKeepStates }
{}

/// The slot is left in a state, and if it states a document, that is the plan's, whole.
pub fn crashes_leave_whole_slots()
    ensures { CrashesLeaveWholeSlots }
{}
