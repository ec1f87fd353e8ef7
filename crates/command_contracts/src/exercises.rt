//! The events of an exercise, and what their replies come to.
ghost use Rattle.std.specs.Prelude.{◌≡◌, ◌≤◌, ◌+◌, ◌*◌, IfOk, length, string_bytes};
ghost use Rattle.command_line.specs.declared.words.TheConstants.{MAX_DOCUMENTS};
ghost use Rattle.volume_exercise.specs.Events.{exercise_events};
ghost use Rattle.volume_exercise.specs.Tallies.{counted_text, first_refusal};

use cell_types::{NoMemory, Refusal};
use script_events::Event;
use script_replies::Reply;
use std::alloc::Global;
use volume_exercise::{exercise_events, first_refusal, text_of};

/// `exercise_events`.
pub fn exercise_events_again(alloc: Global, documents: u32) -> Result<Vec<Event>, NoMemory>
    requires { documents ≤ MAX_DOCUMENTS }
    ensures { IfOk result (λ events. events.items ≡ exercise_events documents) }
{
    exercise_events(alloc, documents)
}

/// `first_refusal`.
pub fn first_refusal_again(replies: &[Reply]) -> Option<Refusal>
    ensures { result ≡ first_refusal replies.now }
{
    first_refusal(replies)
}

/// `text_of`.
pub fn text_of_again(alloc: Global, documents: u32, replies: &[Reply]) -> Result<String, NoMemory>
    requires few { documents ≤ MAX_DOCUMENTS }
    requires all { length replies.now ≡ 2 * documents + 401 }
    ensures { IfOk result (λ text. string_bytes text ≡ counted_text documents replies.now) }
{
    text_of(alloc, documents, replies)
}
