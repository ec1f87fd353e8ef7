//! What a search finds behind a pointer, and what a look into one block finds.
use jump_block::Entry;

/// What a search behind a pointer finds.
#[derive(Clone, Copy)]
pub enum Looked {
    /// The first entry with a key that was asked for.
    Found(Entry),
    /// No such entry has a trail from here.
    Nothing,
    /// The block has no key in the pointer's span at all, so the pointer is evidence.
    NoKey,
}

/// What a look into one block finds.
#[derive(Clone, Copy)]
pub enum Here {
    /// All that there is to find from this block.
    Ends(Looked),
    /// The block is full, and its greatest key, which is this, is below the asked one.
    Beyond(u32),
}
