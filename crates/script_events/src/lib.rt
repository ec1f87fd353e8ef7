//! Reads a script: what befalls one device in memory, event by event.
//!
//! A script is a JSON text. It says how many cells the device has, and then what is asked of it, what somebody else
//! writes, and where it crashes:
//!
//!     {"cells": 1000, "events": [
//!      {"do": "format", "slots": 8, "lists": 2},
//!      {"do": "ingest", "id": "a", "body": "hello world", "stop": {"step": 12}},
//!      {"do": "crash", "keep": [37]},
//!      {"do": "recover"},
//!      {"do": "find", "words": ["hello"]}]}
//!
//!     1   Format { slots: 8, lists: 2, plan }      the plan is empty: nothing befalls the command
//!     2   Ingest { id, stamp, body, plan }         it has no stamp; after the 12th write or sync each call of it fails
//!     3   Crash { keep }                           of the cells that are not sure, 37 alone stays
//!     4   Recover { plan }
//!     5   Find { terms, plan }
//!
//! Each event has the member `do` and just the members of its kind. An ingest may have a stamp, in seconds, as documents
//! of a volume of version 3 need one: `{"do": "ingest", "id": "a", "stamp": 1000, "body": ""}`. A number is whole,
//! without sign, point or exponent, and in range. A text that is none is refused by the number of its first event that is
//! none, from 1, and with 0 where it is no script as a whole:
//!
//!     {"cells": 9, "events": [{"do": "audit"}, {"do": "fly"}]}      BadScript(2)
//!     {"cells": 0, "events": []}                                    BadScript(0)
//!
//! The grammar is a relation between a value of JSON and an event. A text is one script at most and has one fault at
//! most, so what `read_script` answers is settled by the text, but for want of memory; and whatever it reads is within
//! the limits of scripts (`AreEventsOn`), which is all that a replay asks.
//!
//! Stands on `serde_json` (JSON), `hex`, `document_store` (texts and identifiers), `word_reader` (terms) and
//! `worm_memory` (moments). Begin with `event.rt` and `specs/Grammar.antt`; `specs/Scripts.antt` says which text is
//! which script, and `specs/Events.antt` what holds of its events.
#![tactic(auto)]

mod event;
mod kind;
mod laws;
mod limits;
mod lists;
mod members;
mod plan;
mod reader;
mod rows;
mod script;
mod sequence;
mod texts;
mod values;

pub use event::{Event, Schedule, Script, Timed};
pub use kind::EventKind;
pub use laws::{scripts_are_in_limits, texts_are_one_script};
pub use limits::{
    MAX_EVENTS, MAX_FAILING, MAX_FOREIGN_WRITES, MAX_KEPT, MAX_MOMENT, MAX_SCRIPT_CELLS, MAX_WORDS,
};
pub use script::read_script;
pub use sequence::Sequence;
