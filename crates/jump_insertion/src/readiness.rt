//! Laws for callers that insert into one list after another: what may be inserted, and what goes on.
ghost use Rattle.jump_insertion.specs.GoingOn.{NothingIsTouched, OthersStayUntouched, TrailsGoOn, UntouchedIsReady};

/// Where nothing is planned, no list is touched.
pub fn nothing_is_touched()
    ensures { NothingIsTouched }
{}

/// Any posting may be inserted into a list of which nothing is planned.
pub fn untouched_is_ready()
    ensures { UntouchedIsReady }
{}

/// What one insertion plans leaves another list untouched, whose first block lies apart.
pub fn others_stay_untouched()
    ensures { OthersStayUntouched }
{}

/// The trail of a posting goes on over later insertions.
pub fn trails_go_on()
    ensures { TrailsGoOn }
{}
