//! The public contracts of an audit once more, each on a function that only calls the one that has it, with the wrong
//! bodies that they refuse: the cells that are kept, rules, and the audit as a whole.
//!
//! The head of `cell_contracts` says what such a crate is for, and why wrong bodies stand in it and not where the
//! contract does.
#![tactic(auto)]

mod audits;
mod kept;
mod lists;
mod slots;
mod trees;

pub use audits::audit_again;
pub use kept::{broken_outcome_again, keep_cells_again, lower_of_again};
pub use lists::{
    blocks_for_two_again, blocks_of_again, broken_entry_again, broken_posting_again,
    broken_trail_again, posting_at_again,
};
pub use slots::{
    broken_journal_again, broken_stray_again, broken_target_again, broken_tiling_again,
};
pub use trees::{broken_bucket_again, broken_child_again, broken_pointer_again, nodes_of_again};
