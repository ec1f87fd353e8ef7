//! Finds the document of an identifier by the hash tree, or the place where the identifier's entry would go.
//!
//! An identifier's path goes by its SHA-256, and each bucket on it that has the digest's fingerprint names a slot. The
//! walk compares the documents of these slots with the identifier, from the root down. On a volume of 8 slots and 2
//! lists, whose root is at cell 548, with the document `a` in slot 0:
//!
//!     cell 560    bucket    slot 0, fingerprint ca978112ca1bbd
//!
//!     walk for `a`, digest ca 97 ..    bucket 560 names slot 0, whose document is `a`: found, slot 0
//!     walk for `b`, digest 3e 23 ..    bucket 551 is blank: the path ends there
//!
//! **What is found is the one.** A slot that is found holds a document with this identifier, and each bucket above its
//! own is passed: it has another fingerprint, or its slot stands with another identifier. So of the slots that stood
//! with the identifier it is the one that had a hash trail. Where the path ends, or is full, none had.
//!
//! **No cell is trusted.** A bucket on the path that names a slot at or past the horizon, or one that is not done, is
//! evidence with rule 11; a slot whose cells are no state with one of the rules 1 to 3, a document that is broken with
//! rule 4, and what is wrong on the path itself with rule 11 or 12.
//!
//! A walk takes no memory. It makes at most 512 reads besides those of the documents that it compares, and reads each cell
//! of these once; `specs/Costs.antt` says which they are. Stands on `hash_tree` for the path, on `document_store` for
//! documents, on `tamper_rules` for what a broken rule is, and on `volume_meaning` for digests. Begin with `walks.rt`; `specs/Walks.antt` says
//! what an answer means.
#![tactic(auto)]

mod answers;
mod candidates;
mod walks;

pub use answers::Walk;
pub use walks::{lookup, walk};
