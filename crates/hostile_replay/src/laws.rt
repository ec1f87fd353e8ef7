//! Laws, each a function that does nothing and whose contract is the law: what is promised of every list of commands,
//! crashes at any moment and foreign writes into blank cells.
//!
//! A world is a list of events with their replies, and the states of a device in memory between them. In this one, on a
//! device of 1,000 cells, an ingest is cut short by its plan, and a crash takes one of the two cells that are not sure:
//!
//!     event                                    reply
//!     format 8 2                               formatted
//!     ingest a `hello world`, stop: Step(12)   refused: device fault
//!     crash, keep 37                           kept 1 of 2
//!     recover                                  slot 0 completed
//!     find hello                               found 0
//!
//! The ingest was not acknowledged, so nothing was owed; that its document is found, whole, is one of the two ways in
//! which one that was cut short may end. Each turn of a world says what its engine's clause says of the call, and that
//! the device went by the event's plan; the laws here follow from these for every world, by induction along its turns.
//!
//! A replay makes worlds of scripts, on a real device in memory; its replies are those of a world, so all that is said
//! here holds of them. Begin with `specs/Headline.antt`, the page of the promise; `specs/Turns.antt` and
//! `specs/Worlds.antt` say what a world is, and `specs/Undisturbed.antt` what is known of a world whose events let
//! nobody else write, or that nothing befalls.
ghost use Rattle.hostile_replay.specs.Completeness.{CommandsComplete};
ghost use Rattle.hostile_replay.specs.ForeignOutcome.{AbandonedIsNotAcknowledged};
ghost use Rattle.hostile_replay.specs.Headline.{AcknowledgedAreReturned, Headline, IngestsAreHeld, ReturnedStand, TamperingIsEvident, ToldIsExact};
ghost use Rattle.hostile_replay.specs.InTime.{CommitsComeFirst};
ghost use Rattle.hostile_replay.specs.Refusals.{NoneIsOfWords};
ghost use Rattle.hostile_replay.specs.Steadily.{CommandsAreWhole};
ghost use Rattle.hostile_replay.specs.Undisturbed.{PlainIsDone, TurnsAreMarked, UnsharedIsAlone};

/// Each document that was acknowledged is returned.
pub fn acknowledged_are_returned()
    ensures { AcknowledgedAreReturned }
{}

/// Each document that is returned stands, and matches.
pub fn returned_stand()
    ensures { ReturnedStand }
{}

/// Tampering that is named is evident.
pub fn tampering_is_evident()
    ensures { TamperingIsEvident }
{}

/// Where nobody else has written, what is held are the documents of the ingests, in order.
pub fn ingests_are_held()
    ensures { IngestsAreHeld }
{}

/// Where nobody else has written, no tampering is named, and queries tell of just what is held.
pub fn told_is_exact()
    ensures { ToldIsExact }
{}

/// Each command, from a steady device on where nobody else writes, leaves and tells what it should.
pub fn commands_are_whole()
    ensures { CommandsAreWhole }
{}

/// Each command that can be done is done.
pub fn commands_complete()
    ensures { CommandsComplete }
{}

/// From a new device on, events in which nobody else writes leave it undisturbed, and what is held comes from the
/// ingests.
pub fn unshared_is_alone()
    ensures { UnsharedIsAlone }
{}

/// From a new device on, commands for which nothing is planned leave it undisturbed, no call fails, what is held are
/// the documents that were acknowledged, and each command is done wherever it can be.
pub fn plain_is_done()
    ensures { PlainIsDone }
{}

/// Each event leaves one mark.
pub fn turns_are_marked()
    ensures { TurnsAreMarked }
{}

/// No event is refused for its words.
pub fn none_is_of_words()
    ensures { NoneIsOfWords }
{}

/// All that a world promises.
pub fn headline()
    ensures { Headline }
{}

/// Where somebody else was to write the outcome cell of an ingest's slot, and it is acknowledged all the same, the moment
/// was past the commit.
pub fn commits_come_first()
    ensures { CommitsComeFirst }
{}

/// Where somebody else is to abandon slot 0 before one of the first nine steps of its ingest, that is not acknowledged.
pub fn abandoned_is_not_acknowledged()
    ensures { AbandonedIsNotAcknowledged }
{}
