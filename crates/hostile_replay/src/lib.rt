//! Replays events on a device in memory: commands that a plan cuts short, crashes, and what others write.
//!
//! On a device of 1,000 cells
//!
//!     event                                    reply
//!     format 8 2                               formatted
//!     ingest a `hello world`, stop: Step(12)   refused: device fault
//!     crash, keep 37                           kept 1 of 2
//!     recover                                  slot 0 completed
//!     find hello                               found 0
//!
//! Each event is a command of its own: first the device takes room for all that it may record, then the command begins
//! with the event's plan, and then the engine's own call is made, the one that a program makes on a real device. The
//! device carries the plan out, so the engine meets its faults and foreign writes wherever they fall.
//!
//! At Ok the replies are those of a world (`IsWorld`), so all that is promised of worlds holds of them. The only
//! refusal is want of memory for the replay itself; a command that finds none is answered so, and the replay goes on.
//!
//! What is promised of every list of commands, crashes at any moment and foreign writes into blank cells, is said in
//! `laws.rt`, with specs/Headline.antt as its page.
//!
//! Stands on the engines, on `command_laws` and on `script_replies`. Begin with `replaying.rt`; `commands.rt` has a
//! function an event.
#![tactic(auto)]

mod by_hand;
mod commands;
mod laws;
mod queries;
mod replaying;

pub use laws::{
    abandoned_is_not_acknowledged, acknowledged_are_returned, commands_are_whole,
    commands_complete, commits_come_first, headline, ingests_are_held, none_is_of_words,
    plain_is_done, returned_stand, tampering_is_evident, told_is_exact, turns_are_marked,
    unshared_is_alone,
};
pub use replaying::replay;
