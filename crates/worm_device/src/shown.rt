//! What an overlay shows.
use crate::overlay::{OVERLAY_CELLS, Overlay};
use crate::{Failed, View};
use cell_types::Cell;

impl<'a, V: View> View for Overlay<'a, V> {
    ghost use Rattle.worm_device.specs.Overlays.{seen_over};
    ghost use Rattle.worm_device.specs.Overlaying.{overlay_is_view};

    ghost seen = { λ o. seen_over (V.seen o.view) o.own.ghost_name o.own.now.planned o.own.now.owners o.fresh };

    ghost proper = { λ o. overlay_is_view (V.seen o.view) (V.proper o.view) o.own.now.planned o.own.now.owners o.own.now.owned o.own.ghost_name o.fresh };

    fn cells(&self) -> u32 {
        OVERLAY_CELLS
    }

    fn read(&mut self, at: u32) -> Result<Option<Cell>, Failed> {
        if let Some(value) = self.own.cell(at) {
            return Ok(Some(value));
        }
        if at < self.fresh && at < self.view.cells() {
            return self.view.read(at);
        }
        Ok(None)
    }

    fn read_row(&mut self, at: u32, cells: &mut [Option<Cell>]) -> Result<(), Failed> {
        let end = at + cells.len() as u32;
        if end <= self.fresh && end <= self.view.cells() && !self.own.plans_between(at, end) {
            return self.view.read_row(at, cells);
        }
        self.read_each(at, cells)
    }
}

impl<'a, V: View> Overlay<'a, V> {
    ghost use Rattle.std.specs.Prelude.{◌≤◌, ◌+◌, length};
    ghost use Rattle.worm_device.specs.Overlays.{of_overlay};
    ghost use Rattle.worm_device.specs.ReadRows.{ViewReadsRow};

    /// Reads neighbouring cells one after another.
    fn read_each(&mut self, at: u32, cells: &mut [Option<Cell>]) -> Result<(), Failed>
        requires { at + length cells.old ≤ (of_overlay V.seen self.old).cells }
        ensures { ViewReadsRow at cells.old cells.new (of_overlay V.seen self.old) (of_overlay V.seen self.new) result }
    {
        for place in 0..cells.len() {
            cells[place] = self.read(at + place as u32)?;
        }
        Ok(())
    }
}
