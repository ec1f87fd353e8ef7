//! Reading by way of kept cells.
ghost use Rattle.std.specs.Prelude.{◌≡◌, ◌<◌, ◌≤◌, ◌+◌, ◌/◌, ◌%◌, length, IsSome};
ghost use Rattle.worm_device.specs.ReadBytes.{ViewReadsBytes};
ghost use Rattle.worm_device.specs.ReadRows.{ViewReadsRow};
ghost use Rattle.worm_device.specs.Views.{ViewReads};
ghost use Rattle.read_cache.specs.Keeping.{kept_in, seen_through};

use crate::Cached;
use cell_types::Cell;
use worm_device::{Failed, View};

impl<'a, V: View> View for Cached<'a, V> {
    ghost use Rattle.read_cache.specs.Keeping.{seen_through, through_is_view};

    ghost seen = { λ c. seen_through c.view.ghost_name (V.seen c.view.now) };

    ghost proper = { λ c. through_is_view c.view.ghost_name (V.seen c.view.now) (V.proper c.view.now) };

    fn cells(&self) -> u32 {
        self.view.cells()
    }

    /// What the view below shows in the cell. It is asked once, or not at all where the cell is kept.
    fn read(&mut self, at: u32) -> Result<Option<Cell>, Failed>
        requires { at < (V.seen self.old.view.now).cells }
        ensures reads { ViewReads at (seen_through self.old.view.ghost_name (V.seen self.old.view.now))
            (seen_through self.new.view.ghost_name (V.seen self.new.view.now)) result }
        ensures spared { IsSome (kept_in self.old.cache.now at)
            → V.seen self.new.view.now ≡ V.seen self.old.view.now }
    {
        if let Some(cell) = self.cache.kept(at) {
            return Ok(Some(cell));
        }
        let Some(cell) = self.view.read(at)? else {
            return Ok(None);
        };
        self.cache.keep(at, cell);
        Ok(Some(cell))
    }

    /// A row is asked below in one call, and nothing of it is kept.
    fn read_row(&mut self, at: u32, cells: &mut [Option<Cell>]) -> Result<(), Failed>
        requires { at + length cells.old ≤ (V.seen self.old.view.now).cells }
        ensures reads { ViewReadsRow at cells.old cells.new
            (seen_through self.old.view.ghost_name (V.seen self.old.view.now))
            (seen_through self.new.view.ghost_name (V.seen self.new.view.now)) result }
        ensures leaves { self.new.cache.now ≡ self.old.cache.now }
    {
        self.view.read_row(at, cells)
    }

    /// So are the bytes of a row.
    fn read_bytes(&mut self, at: u32, bytes: &mut [u8]) -> Result<(), Failed>
        requires whole { length bytes.old % 16 ≡ 0 }
        requires inside { at + length bytes.old / 16 ≤ (V.seen self.old.view.now).cells }
        ensures reads { ViewReadsBytes at bytes.old bytes.new
            (seen_through self.old.view.ghost_name (V.seen self.old.view.now))
            (seen_through self.new.view.ghost_name (V.seen self.new.view.now)) result }
        ensures leaves { self.new.cache.now ≡ self.old.cache.now }
    {
        self.view.read_bytes(at, bytes)
    }
}
