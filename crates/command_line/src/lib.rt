//! The words that a command is given, and the lines that it puts out.
//!
//!     words                 ask for
//!     format 8 2            a volume of 8 slots and 2 lists, of the first version
//!     ingest a 1000         a document of this name, with a stamp of 1,000 seconds
//!     find hello world      the documents that have both words
//!     format 8              nothing
//!
//! `command_of` reads the words in place, without memory, and answers the one command that they ask for, or that they ask
//! for none. A word that is empty or begins with a hyphen is an option, and no command takes one. A number has 1 to 10
//! digits and is in its range. `numbers_behind` reads numbers of slots and lists, behind `format` and behind `copy`, which
//! is no command of one device.
//!
//! What most commands put out are lines: of a slot, as `acknowledged 0`, of a document, as `0 a 11`, and how many were
//! found. They are made here, and a text goes into a sink whole or in a first part.
//!
//! A further command is one case in each relation of specs/Requests.antt, its words in specs/Asking.antt, and a reader in
//! `words.rt`.
//!
//! Stands on `cell_types` and `host_ports`, and knows nothing of volumes. `record_top` carries out what is asked for, of
//! one device or of two. Begin with `words.rt`; specs/Requests.antt says which commands there are.
#![tactic(auto)]

mod laws;
mod numbers;
mod text;
mod words;

pub use laws::{decimals_are_numbers, words_ask_once};
pub use text::{SinkFailed, push_count_line, push_document_line, put_slot_line, put_text};
pub use words::{Command, MAX_DOCUMENTS, MAX_QUERY_WORDS, Numbers, command_of, numbers_behind};
