//! Written cells in chunks, so that none is moved once it is kept.
ghost use Rattle.std.proofs.Props.{props};
ghost use Rattle.log_audit.specs.Chunks.{AreChunks};

use crate::written::WrittenCell;

/// How many written cells a chunk has room for: 81,920 bytes.
pub(crate) const CHUNK_ROWS: usize = 4_096;

/// Written cells one after another. All chunks but the last are full, and a full one is never copied: more cells take
/// the memory of one chunk more, and no second copy of those before.
#[derive(Drop)]
pub struct ChunkedRows {
    pub(crate) full: Vec<Vec<WrittenCell>>,
    pub(crate) last: Vec<WrittenCell>,
    ghost chunks: { AreChunks full.items last.items } by { Prim.hlevel props },
}
