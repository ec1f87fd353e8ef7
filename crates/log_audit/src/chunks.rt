//! Rows of written cells in chunks: one more of them, and which stands at a place.
ghost use Rattle.std.specs.Prelude.{◌≡◌, slice_get};

use crate::chunked::{CHUNK_ROWS, ChunkedRows};
use crate::written::WrittenCell;
use cell_types::{NoMemory, memory};
use std::alloc::Global;
use std::mem;

impl ChunkedRows {
    ghost use Rattle.std.specs.Prelude.{◌≡◌, ◌<◌, ◌++◌, ◌∷◌, ◌^◌, [], length, slice_get, OnErr, OnOk};
    ghost use Rattle.log_audit.specs.AllRows.{all_rows};
    ghost use Rattle.log_audit.specs.declared.chunked.TheConstants.{CHUNK_ROWS};

    /// No cell yet. It takes no memory.
    pub(crate) fn none(alloc: Global) -> ChunkedRows
        ensures { all_rows result ≡ [] }
    {
        ChunkedRows {
            full: Vec::new(alloc),
            last: Vec::new(alloc),
        }
    }

    /// How many there are.
    pub(crate) fn count(&self) -> usize
        requires { length (all_rows self.now) < 2 ^ 32 }
        ensures { result ≡ length (all_rows self.now) }
    {
        self.full.len() * CHUNK_ROWS + self.last.len()
    }

    /// The written cell at a place.
    pub(crate) fn row_at(&self, place: usize) -> Option<WrittenCell>
        ensures { result ≡ slice_get (all_rows self.now) place }
    {
        let chunk = place / CHUNK_ROWS;
        if chunk < self.full.len() {
            return row_in(&self.full[chunk], place % CHUNK_ROWS);
        }
        row_in(&self.last, place - self.full.len() * CHUNK_ROWS)
    }

    /// Adds a written cell behind the others.
    pub(crate) fn push(&mut self, alloc: Global, row: WrittenCell) -> Result<(), NoMemory>
        ensures adds { OnOk result (all_rows self.new ≡ all_rows self.old ++ row ∷ []) }
        ensures stays { OnErr result (all_rows self.new ≡ all_rows self.old) }
    {
        self.make_room(alloc)?;
        memory::push(&mut self.last, row)?;
        Ok(())
    }

    /// Begins a chunk where the last one is full.
    fn make_room(&mut self, alloc: Global) -> Result<(), NoMemory>
        ensures stays { all_rows self.new ≡ all_rows self.old }
        ensures room { OnOk result (length self.new.last.items < CHUNK_ROWS) }
    {
        if self.last.len() < CHUNK_ROWS {
            return Ok(());
        }
        memory::reserve(&mut self.full, 1)?;
        let fresh = memory::with_capacity(alloc, CHUNK_ROWS)?;
        let chunk = mem::replace(&mut self.last, fresh);
        let Ok(()) = self.full.push(chunk) else {
            // There is room for one more.
            unreachable!();
        };
        Ok(())
    }
}

/// The written cell at a place of a chunk.
fn row_in(rows: &[WrittenCell], place: usize) -> Option<WrittenCell>
    ensures { result ≡ slice_get rows.now place }
{
    match rows.get(place) {
        Some(row) => Some(*row),
        None => None,
    }
}
