//! The audit of a volume: it checks the fifteen rules at every written cell, and counts slots and cells.
//!
//! An auditor needs nothing but the device. The audit settles the volume, reads each cell once, in rising
//! order, and keeps the written ones in memory. Then it checks one rule after another there. It names the
//! first rule that is broken, at the smallest cell that breaks it. If none is broken, the volume is
//! **sound**, and the audit answers how many slots are done, how many are abandoned, and how many cells are
//! written.
//!
//!     rules         are about                  checked by
//!     1 to 3        the log                    log_audit
//!     4, 5, 6       documents and journals     slot_audit
//!     7             cells astray               slot_audit
//!     8             what stands in blocks      list_audit
//!     9             whose postings they are    list_audit
//!     10            pointers                   tree_audit
//!     11, 12        buckets and child cells    tree_audit
//!     13            trails of postings         list_audit
//!     14            paths of documents         tree_audit
//!     15            blocks of slots            slot_audit
//!
//! Take the volume of 8 slots and 2 lists on 1,000 cells with the document `a`. The audit answers 1 done, 0
//! abandoned and 11 written. If somebody then writes an abandon cell into cell 9, it names rule 2 there.
//!
//! It takes 20 bytes of memory for each written cell, 20 for each slot, and 4 for each page of 256 cells.
//! From rule 9 to rule 13 it takes 16 more for each posting, and room for the words of one document. A
//! posting has two written cells, itself and its copy in a journal: with many postings that makes 28 bytes
//! for each written cell. A slot that was given up has two as well: with many of them it makes 30. Room is
//! taken at once if its size is known.
//!
//! Stands on the crates in the right column, which check the rules, and on `recovery_engine`, which
//! settles. Begin with `auditing.rt`, then `judging.rt`. `specs/Audits.antt` says what an audit answers,
//! and why.
#![tactic(auto)]

mod auditing;
mod judging;
mod report;

pub use auditing::{audit, audit_metered};
pub use report::AuditReport;
