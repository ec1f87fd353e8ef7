//! The blocks of a volume's posting lists, whether what stands in them is in order and is what the documents ask for, and
//! whether each document is found by its words.
//!
//! A list begins at its first block, and each jump cell at a pointer place of one of its blocks leads to a block more. An
//! audit looks at all of them, over cells that were read once and are kept. On the volume of 8 slots and 2 lists on 1,000
//! cells, where cell 164, the first pointer place of the block at 36, holds a jump cell to 620:
//!
//!     list 0    block 36     its first
//!     list 1    block 292    its first
//!     list 0    block 620    from cell 164 = 36 + 128
//!
//! Nobody says that a volume is a good one. Its pointers may lead in a circle, many lists may lead into one block, and
//! blocks may meet. So each block of a list is taken once, whatever leads to it, and a block to which two lists lead is
//! one of each. A third list's is passed over (`blocks_for_two`), so that there are two blocks a cell at most, however
//! many lists somebody has led there. Two are enough for each rule but in one case of rule 9, for which all are listed
//! (`blocks_of`). They come by rising numbers, so that what meets a block is found by bisection. That costs 28 bytes a
//! block while they are found, 36 while they are put in order, 16 from then on, and no bytes for a cell of none; a block
//! to which a third list leads costs 8 more while they are found. Blocks of a list that meet have pointer places in
//! common, up to 119 of them. Each is followed once for the list and for two lists at most, by `followed.rt`: what it
//! leads to is there for these two, or for two others.
//!
//! **Rule 8** asks of the cells of a block that postings stand at its first places, without a gap and by rising keys, and
//! nothing behind its pointers:
//!
//!     36 to 163     entry places      each written one holds a posting, behind one with a smaller key
//!     164 to 283    pointer places    of another rule
//!     284 to 291    no places         blank
//!
//! Blocks may meet, so what is found at one is joined with what was found before by `log_audit::lower_of`.
//!
//! **Rule 9** asks that each posting is one of a document's, and **rule 13** that each posting which a document asks for is
//! led to. `rules.rt` tells of both, with an example.
//!
//! Stands on `log_audit` (kept cells and the log), `term_tags` (postings of words) and `jump_block` (spans). Two layers are
//! in it. The blocks of lists are found by `blocks.rt`, with `listed.rt`, `found.rt`, `followed.rt`, `between.rt` and
//! `targets.rt`; `specs/Blocks.antt` says what they are. The others judge them: `entries.rt` rule 8, `postings.rt` rule 9,
//! and `rules.rt` rule 13. Begin with `blocks.rt`, then `rules.rt`.
#![tactic(auto)]

mod between;
mod blocks;
mod bodies;
mod entries;
mod followed;
mod found;
mod held_posting;
mod listed;
mod listing;
mod places;
mod postings;
mod rules;
mod steps;
mod table;
mod targets;
mod trails;

pub use blocks::{blocks_for_two, blocks_of};
pub use entries::first_broken_entry;
pub use found::ListBlocks;
pub use held_posting::posting_at;
pub use listed::{BLOCK_STEP, ListBlock};
pub use postings::first_broken_posting;
pub use rules::first_broken_trail;
pub use table::{OwedPostings, owed_postings};
pub use targets::pointer_target;
pub use trails::has_trail;
