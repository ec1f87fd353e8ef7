//! Kept cells that grow by the next cell.
ghost use Rattle.std.specs.Prelude.{◌≡◌, ◌<◌, ◌+◌, ◌^◌, ℕ, None, IfOk, OnOk};
ghost use Rattle.log_audit.specs.Kept.{image_of_kept, count_of, IsNext};

use crate::KeptCells;
use crate::chunked::ChunkedRows;
use crate::written::{PAGE_CELLS, WrittenCell};
use cell_types::{Cell, NoMemory, memory};
use std::alloc::Global;

impl KeptCells {
    /// No cell is kept yet, and there is room for the pages of so many.
    pub(crate) fn none(alloc: Global, cells: u32) -> Result<KeptCells, NoMemory>
        ensures count { IfOk result (λ kept. count_of kept ≡ 0) }
        ensures blank { IfOk result (λ kept. (cell : ℕ) → image_of_kept kept cell ≡ None) }
    {
        let pages = (cells / PAGE_CELLS) as usize + 1;
        let starts = memory::with_capacity(alloc, pages)?;
        Ok(KeptCells {
            count: 0,
            rows: ChunkedRows::none(alloc),
            starts,
        })
    }

    /// Keeps what was found in the next cell.
    pub(crate) fn keep_next(&mut self, alloc: Global, found: Option<Cell>) -> Result<(), NoMemory>
        requires { count_of self.old + 1 < 2 ^ 32 }
        ensures { OnOk result (IsNext found self.old self.new) }
    {
        self.begin_page()?;
        let number = self.count;
        let Some(cell) = found else {
            self.count = number + 1;
            return Ok(());
        };
        // Known of a cell once its bytes are asked for: there are sixteen, and not all of them are zero.
        let _bytes = cell.bytes();
        self.rows.push(alloc, WrittenCell { number, cell })?;
        self.count = number + 1;
        Ok(())
    }

    /// Keeps where a page begins, if the next cell is the first of one.
    fn begin_page(&mut self) -> Result<(), NoMemory>
        ensures count { self.new.count ≡ self.old.count }
        ensures rows { self.new.rows ≡ self.old.rows }
    {
        if self.count % PAGE_CELLS != 0 {
            return Ok(());
        }
        // It is kept already where the cell found no memory before.
        if (self.count / PAGE_CELLS) as usize != self.starts.len() {
            return Ok(());
        }
        let start = self.rows.count() as u32;
        memory::push(&mut self.starts, start)?;
        Ok(())
    }
}
