//! What a search by time answers.
use document_store::Text;

/// A document of a span of time.
#[derive(Drop)]
pub struct TimeMatch {
    pub slot: u32,
    /// Its identifier, 1 to 200 bytes.
    pub identifier: Text,
    /// Its stamp, in seconds.
    pub seconds: u32,
    /// How many bytes its body has, 0 to 1,048,576.
    pub bytes: u32,
}
