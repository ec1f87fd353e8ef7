//! A document as the cells that it is stored in.
ghost use Rattle.std.specs.Prelude.{IfOk};
ghost use Rattle.volume_meaning.specs.Documents.{IsBody, IsIdentifier};
ghost use Rattle.ingest_engine.specs.StoredCells.{IsStoredAs};

use append_file::{CONTENT_BYTES, push_content};
use cell_types::{Cell, NoMemory, memory};
use std::alloc::Global;

/// A document as it is stored: the identifier's length, the identifier and the body, as content cells.
#[derive(Drop)]
pub struct StoredDocument {
    /// How many stored bytes it has.
    pub bytes: u32,
    pub cells: Vec<Cell>,
}

impl StoredDocument {
    /// The document of this identifier and this body, whose bytes are read in place.
    pub fn new(alloc: Global, id: &[u8], body: &[u8]) -> Result<StoredDocument, NoMemory>
        requires identifier { IsIdentifier id.now }
        requires body { IsBody body.now }
        ensures { IfOk result (IsStoredAs id.now body.now) }
    {
        let bytes = 1 + id.len() + body.len();
        // The head ends where a cell does, so the rest of the body begins a cell of its own.
        let head_length = (1 + id.len())
            .next_multiple_of(CONTENT_BYTES as usize)
            .min(bytes);
        let (front, rest) = body.split_at(head_length - 1 - id.len());
        let mut head = memory::with_capacity(alloc, head_length)?;
        memory::push(&mut head, id.len() as u8)?;
        memory::extend_from_slice(&mut head, id)?;
        memory::extend_from_slice(&mut head, front)?;
        let mut cells = memory::with_capacity(alloc, bytes.div_ceil(CONTENT_BYTES as usize))?;
        push_content(&mut cells, &head)?;
        push_content(&mut cells, rest)?;
        Ok(StoredDocument {
            bytes: bytes as u32,
            cells,
        })
    }
}
