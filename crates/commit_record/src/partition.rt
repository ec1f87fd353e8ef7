//! The three parts of a slot's cells.

/// Where the three parts of a slot's cells begin, and how many cells each has.
#[derive(Clone, Copy)]
pub struct Parts {
    /// The first cell of the posting blocks and hash nodes.
    pub blocks: u32,
    pub block_length: u32,
    /// The first cell of the document.
    pub document: u32,
    pub document_cells: u32,
    /// The first cell of the journal.
    pub journal: u32,
    pub journal_cells: u32,
}
