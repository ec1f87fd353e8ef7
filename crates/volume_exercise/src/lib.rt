//! The exercise: a volume of so many documents, made, searched, read and audited on a device in memory; what its events
//! are, what their replies come to, and why.
//!
//! The exercise with 200 documents puts out
//!
//!     documents 200       document i is `d` and i in six digits, with twenty words w0 to w199
//!     acknowledged 200    each was taken in
//!     single 3800         the documents that the 200 words find, each word alone
//!     pairs 199           those that the 199 pairs of a word and the next one find
//!     looked up 200       each identifier gave a body of its document's length
//!     sound               and the audit found each rule kept
//!
//! It is a replay of events that are made here, on a new device: a format, the ingests, the finds, the look-ups and an
//! audit. So whatever it tells is counted from the replies of a world, of which all is true that is promised of worlds.
//! Where an event was refused, the first refusal is handed on and no line is put out. Where none was, the lines are those
//! that the documents and their words ask for, and the device holds just the documents: nothing befalls the exercise, and
//! nobody else writes. Nothing is replayed here: `record_top` does that, with the command.
//!
//! Stands on `hostile_replay`, which says what a world promises. Begin with `events.rt`; `specs/Documents.antt` has
//! the documents, `specs/Events.antt` the events, `specs/Telling.antt` the lines, and `specs/Exercising.antt` says how
//! an exercise ends and what it leaves.
#![tactic(auto)]

mod documents;
mod events;
mod laws;
mod limits;
mod tallies;

pub use events::exercise_events;
pub use laws::terms_are_words;
pub use limits::{BASE_CELLS, BODY_WORDS, CELLS_PER_DOCUMENT, DISTINCT_WORDS, LISTS};
pub use tallies::{first_refusal, text_of};
