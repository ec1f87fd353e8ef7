//! What a walk along the path of an identifier finds.
use document_store::Part;
use hash_tree::{Level, Open};

/// What a walk along the path of an identifier finds.
#[derive(Clone, Copy)]
pub enum Walk {
    /// Where the document with the identifier lies, of a slot that is done. The walk has read it whole.
    Found(Part),
    /// There is none; the path ends at this place, in the node of this level.
    End(Open, Level),
    /// There is none, and each of the path's 64 buckets is written.
    PathFull,
}
