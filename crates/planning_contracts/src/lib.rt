//! The public contracts of planning once more, each on a function that only calls the one that has it, with the wrong
//! bodies that they refuse: the pool, and what an ingest adds to lists and to the tree.
//!
//! The head of `cell_contracts` says what such a crate is for, and why wrong bodies stand in it and not where the
//! contract does.
#![tactic(auto)]

mod growth;
mod planned;
mod pools;

pub use growth::{insert_entry_again, insert_posting_again};
pub use planned::{copies_of_again, insert_document_again, plan_index_again};
pub use pools::{grant_again, plan_record_again};
