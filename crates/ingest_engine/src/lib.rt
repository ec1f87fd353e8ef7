//! The part that writes: it formats a blank device as a volume, and stores documents in it, each with its
//! index.
//!
//! Take the volume of 8 slots and 2 lists on 1,000 cells. To ingest the document `a` with the body `hello
//! world` takes sixteen steps:
//!
//!     settle     sync                               what was written is sure, and no slot is half done
//!     reserve    write cell 4; sync                 slot 0 has cells 580 to 583
//!     store      write cells 580 to 583; sync       the document and its journal are on the device
//!     commit     write cell 5; sync                 the document counts as stored
//!     apply      write cells 36, 37 and 560; sync   the index leads to it: two postings and a bucket
//!     finish     write cell 6; sync                 slot 0 is done: the document is kept, and no crash takes it
//!
//! After settling and before the first write it only reads, plans and checks:
//!
//! - A slot is free.
//! - No kept document has the identifier: the path of its SHA-256 ends at cell 560, which is blank.
//! - The index is planned: two postings and a bucket. Copies of these three cells are the journal.
//! - The document and its journal need four cells, and the pool has them.
//! - The slot's other cells, 5 to 7, and the cells that it will reserve, 580 to 583, are blank.
//!
//! By then it has all the memory it needs. From there on an ingest fails only if the device fails, or if
//! somebody else has written a cell that it needs.
//!
//! If documents are stamped, an ingest is given a stamp. It first reads the stamps of the done slots, from
//! the last down, and refuses one that is not greater than all of them. The stamp goes into cell 7, before
//! cell 580 is written, and its posting into the time list.
//!
//! If a crash cuts an ingest short, the next command settles the volume. The slot is then given up, or its
//! document is done, with its whole index.
//!
//! **What is acknowledged is kept**, on any image and whoever else writes: the index leads to the document,
//! and to each one that it led to before (`IsIngested`). **Not claimed**: that no other slot has the
//! identifier. Somebody else may have forged a slot to which the index does not lead, and an ingest does
//! not see it.
//!
//! Stands on `recovery_engine`, which settles; `identifier_lookup`, which follows the path; `ingest_plan`,
//! which plans the index; `append_file`, which makes content cells; and `plan_writer`, which writes them
//! all. Begin with `ingesting.rt`, then `indexing.rt`. `specs/Ingesting.antt` says how an ingest may end,
//! why, and what a crash leaves.
#![tactic(auto)]

mod document;
mod format;
mod indexing;
mod ingesting;
mod laws;
mod stamps;

pub use document::StoredDocument;
pub use format::format_volume;
pub use ingesting::ingest;
pub use laws::greatest_stamps_are_one;
