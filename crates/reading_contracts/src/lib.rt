//! The public contracts of what reads a volume once more, each on a function that only calls the one that has it, with
//! the wrong bodies that they refuse: words and tags, documents, lists, the tree of identifiers, what is kept, and
//! receipts.
//!
//! The head of `cell_contracts` says what such a crate is for, and why wrong bodies stand in it and not where the
//! contract does.
#![tactic(auto)]

mod documents;
mod indexes;
mod joins;
mod keeping;
mod log;
mod receipts;
mod tags;
mod tree;
mod words;

pub use documents::{
    body_into_again, check_again, next_byte_again, next_row_again, part_of_state_again,
};
pub use indexes::{find_geq_again, first_at_least_again, of_block_again};
pub use joins::{all_of_terms_again, live_part_again, next_common_again, next_of_terms_again};
pub use keeping::{has_trail_again, is_kept_again};
pub use log::{
    cells_of_slot_again, done_stamp_again, end_of_log_again, open_again, slot_of_row_again,
    slot_state_again,
};
pub use receipts::read_receipt_again;
pub use tags::{
    document_postings_again, document_postings_by_again, keys_of_many_again, keys_of_one_again,
    postings_again,
};
pub use tree::{lookup_again, next_candidate_again, walk_again};
pub use words::{finish_again, single_term_again, words_again};
