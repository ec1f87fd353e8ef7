//! The two queries: `find` finds documents by their words, and a look-up finds one by its identifier.
//!
//! Each settles the volume first. Then it follows the index, and does not go through all slots. Take a
//! volume with three documents and a slot that was given up:
//!
//!     slot         0              1            2           3
//!     document     a              -            b           c
//!     body         hello world    given up     hello       bye
//!
//!     find hello              the list of `hello` has slots 0 and 2: two matches, `a` with 11 bytes and `b` with 5
//!     find hello world        the two lists have only slot 0 in common: one match
//!     look up c               the path of `c` leads to slot 3: the bytes `bye`; slot 3, 3 bytes
//!     look up d               the path of `d` ends at a blank cell: absent
//!
//! A slot that the lists of all words have in common is a **candidate**. A find reads each candidate whole,
//! and returns it only if the words are there: a posting alone is no match. It returns each match that was
//! kept when it began, or names a cell as evidence of tampering, whatever somebody else writes meanwhile. A
//! candidate whose document is broken is named, and never passed.
//! If no word leads to a broken document, a find does not read it; an audit does. The volume's version says
//! what a word is. If words are made of characters, a find takes memory for one body at a time.
//!
//! A settled volume bounds the reads of a find, if nobody else writes. Say that it asks for T words, and
//! that Near is the smallest number of documents with a posting in the list of one of them. Then it makes
//! at most `256 + 49,152 * T * (Near + 1)` reads, and four more for each cell of a candidate. Suppose that
//! `hello` and `world` above have lists of their own. Then `find hello world` has T 2, Near 1 and one
//! candidate of one cell: at most 196,868 reads, however many documents there are.
//!
//! A look-up follows the path of the identifier alone. It checks the whole document before its first byte goes out,
//! and takes no memory; `locate` puts nothing out. On a settled volume it makes at most 1,024 reads, and two more
//! for each cell of a document whose bucket on that path has the fingerprint of the identifier.
//!
//! Lists and slots are read by way of 4,096 kept cells: one that is read by itself, for a second word or in
//! a later search, is mostly answered from memory. Documents are read past them.
//!
//! Stands on `posting_list`, which finds the slots that words have in common; `read_cache`, which keeps
//! cells; `identifier_lookup`, which follows the path; `document_store`, which reads documents; and
//! `word_reader`, which finds words. Begin with `finding.rt` and `looking_up.rt`. `specs/Finding.antt` and
//! `specs/LookingUp.antt` say how each may end, and why.
#![tactic(auto)]

mod common;
mod finding;
mod found;
mod laws;
mod looking_up;
mod matching;

pub use document_store::Text;
pub use finding::{CELL_READS, FIND_READS, TERM_READS, find};
pub use found::{Found, Match};
pub use laws::a_path_has_mates;
pub use looking_up::{locate, lookup_into};
