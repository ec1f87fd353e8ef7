//! The public contracts of words, lines, scripts, replies, exercises and of the search by time once more, each on a
//! function that only calls the one that has it, with the wrong bodies that they refuse.
//!
//! The head of `cell_contracts` says what such a crate is for, and why wrong bodies stand in it and not where the
//! contract does.
#![tactic(auto)]

mod exercises;
mod lines;
mod scripts;
mod times;

pub use exercises::{exercise_events_again, first_refusal_again, text_of_again};
pub use lines::{command_of_again, put_text_again};
pub use scripts::{begin_with_again, read_script_again, status_again, text_of_replies_again};
pub use times::between_again;
