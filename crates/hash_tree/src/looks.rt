//! What a look at one node of a path finds.
use crate::level::ChildCell;
use crate::path::Open;

/// What the node's two cells on the path say.
#[derive(Clone, Copy)]
pub enum Here {
    /// The bucket has the digest's fingerprint, and was not answered yet.
    Fits { slot: u32, bucket: u32 },
    /// The path ends here.
    Ends(Open),
    /// There is no level below this one.
    Last,
    /// The path goes on below.
    Leads(ChildCell),
}
