//! The hash tree of identifiers: follows the path of a digest through it and answers the candidates one by one, and
//! plans the entry of a slot where that path ends.
//!
//! A node has 32 cells: 16 buckets, then 16 child cells. At level v, from 0 to 63, the digest's half byte v says which
//! bucket and which child cell are on the path; the high half of each byte comes first. A bucket holds a slot and the
//! first seven bytes of a digest, its fingerprint. On a volume of 8 slots and 2 lists, whose root is at cell 548:
//!
//!     digest 3f 79 ..    level 0, half byte 3      bucket 551, another fingerprint: its child cell 567 leads on
//!                        level 1, half byte 15     node 582: bucket 597 has the fingerprint, a candidate
//!                                                  asked again: child cell 613 is blank, the path is open there
//!
//! **None is passed over.** Each bucket before a candidate has another fingerprint, or was answered before. So whatever
//! is sought by this digest, its hash trail lies further on, where the caller has turned down each candidate.
//!
//! **An end is an end.** The path ends at a blank bucket, or under a bucket at a blank child cell, which is where the
//! next entry goes; or all its 64 buckets are written. One image and one level have one answer
//! (`a_step_has_one_answer`).
//!
//! **No cell is trusted.** What is no bucket is evidence with rule 11; what is no child cell, or leads out of the pool
//! or past the edge up to which slots reserve cells, with rule 12.
//!
//! **An entry is found.** An insertion reads nothing and writes nothing: it plans a bucket, and where the path ends under
//! a bucket a new node for it. See `insertion.rt`.
//!
//! A step makes at most two reads a level and takes no memory. Stands on `volume_meaning` for the path and the parts of a
//! digest, on `tamper_rules` for what a broken rule is, on `worm_device` for views, on `cell_pool` for nodes and planned
//! cells, and on `ingest_laws` for the tree's shape. Begin with `path.rt`, then `insertion.rt`; `specs/Steps.antt` says what an answer means.
#![tactic(auto)]

mod insertion;
mod insertion_laws;
mod laws;
mod level;
mod looks;
mod node_cells;
mod path;

pub use insertion::insert;
pub use insertion_laws::{passed_is_on_path, taken_is_broken};
pub use laws::a_step_has_one_answer;
pub use level::{ChildCell, Level};
pub use path::{Open, PathStep, next_candidate};
