//! Laws of settling, each a function that does nothing and whose contract is the law: that whatever a crash leaves of a
//! device, at any moment, settling makes a settled volume of it, with no alarm.
//!
//! A device is **steady** where each image that a crash may leave of it now has no written cell, or is sound
//! (`IsSteady`). So is one that holds a settled volume of which all is sure, and one in the midst of an ingest into
//! slot 0, where the first cells are sure and the commit cell stands:
//!
//!     a crash leaves     and settling then                    which holds
//!     cell 5 blank       gives slot 0 up                      the documents that were sure
//!     cell 5 written     carries slot 0's journal out         these, and the document of slot 0
//!
//! From a steady device on, and where nobody else writes, each image that settling may leave is blank or sound, with
//! the documents of what was sure at entry or those of what stood there; and the device is steady behind it, whatever
//! it answers (`settling_stays_steady`). It names no tampering (`settling_names_none`). Where it ends well, what stands
//! is what settling makes of a sound image, and all of it is sure; the step says whether the slot was given up, was
//! carried out, or had ended (`settling_ends_as`). Looks behind it leave this so, and find no broken rule.
//!
//! A sound image breaks none of the rules 1 to 5. It may break others, until it is settled: rule 7, where a target is
//! written and its slot not done; or rule 6, where a done slot's target is blank, if the last slot's journal names it.
//! Where somebody else writes, nothing is said.
//!
//! `record_top` says this of its commands. `specs/SettlingSteadiness.antt` says what is left, and
//! `specs/SettlingLaws.antt` has the laws' sentences.
ghost use Rattle.crash_laws.specs.SettlingLaws.{LookingEndsAs, LookingFindsNone, LookingStaysSteady, SettledWasSound, SettlingEndsAs, SettlingNamesNone, SettlingStaysSteady, SoundIsUnbroken, SureIsSteady, WholeFromTheStart};

/// Where all that stands is sure, a device is steady if that is blank or sound.
pub fn sure_is_steady()
    ensures { SureIsSteady }
{}

/// Settling leaves whole volumes at every moment, and a steady device.
pub fn settling_stays_steady()
    ensures { SettlingStaysSteady }
{}

/// So does a volume that is settled and then only looked at.
pub fn looking_stays_steady()
    ensures { LookingStaysSteady }
{}

/// Settling ends as it makes of a sound image.
pub fn settling_ends_as()
    ensures { SettlingEndsAs }
{}

/// And so it stands behind looks at it.
pub fn looking_ends_as()
    ensures { LookingEndsAs }
{}

/// What is settled from a steady state was sound.
pub fn settled_was_sound()
    ensures { SettledWasSound }
{}

/// From a steady state settling names no tampering.
pub fn settling_names_none()
    ensures { SettlingNamesNone }
{}

/// Behind it looks find no broken rule.
pub fn looking_finds_none()
    ensures { LookingFindsNone }
{}

/// A sound image breaks no rule of the log.
pub fn sound_is_unbroken()
    ensures { SoundIsUnbroken }
{}

/// What a crash could leave from a steady state on is whole.
pub fn whole_from_the_start()
    ensures { WholeFromTheStart }
{}
