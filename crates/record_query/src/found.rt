//! What queries answer.
use document_store::Text;

/// A document that has the words which were sought.
#[derive(Debug, Drop)]
pub struct Match {
    pub slot: u32,
    /// Its identifier, 1 to 200 bytes.
    pub identifier: Text,
    /// How many bytes its body has, 0 to 1,048,576.
    pub bytes: u32,
}

/// A document that was looked up.
#[derive(Clone, Copy, Debug, PartialEq, Eq)]
pub struct Found {
    pub slot: u32,
    /// How many bytes its body has, 0 to 1,048,576.
    pub bytes: u32,
}
