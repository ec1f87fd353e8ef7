//! Cells in memory.
ghost use Rattle.std.proofs.Props.{props};
ghost use Rattle.log_audit.specs.Cells.{AreCellsKept};
ghost use Rattle.log_audit.specs.AllRows.{all_rows};

use crate::chunked::ChunkedRows;

/// The cells of a device below some number: the written ones, by rising numbers. Contracts see the image that they show.
#[derive(Drop)]
pub struct KeptCells {
    pub(crate) count: u32,
    pub(crate) rows: ChunkedRows,
    /// Of each page how many of the rows stand before it.
    pub(crate) starts: Vec<u32>,
    ghost kept: { AreCellsKept count (all_rows rows) starts.items } by { Prim.hlevel props },
}
