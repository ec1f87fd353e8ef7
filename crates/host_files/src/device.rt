//! The calls of a device over a file.
//!
//! A write does not trust the pages: it asks the file itself whether the cell is blank, right before it writes, and
//! puts what it found or wrote onto the cell's page. So does a row, a page at a time, and holds that page no longer.
ghost use Rattle.std.specs.Prelude.{◌≡◌, ◌<◌, ◌≤◌, ◌+◌, ◌/◌, ◌%◌, ◌^◌, length};
ghost use Rattle.worm_device.specs.Calls.{Reads, Writes, Syncs};
ghost use Rattle.worm_device.specs.Counts.{next_count};
ghost use Rattle.worm_device.specs.ReadBytes.{ReadsBytes};
ghost use Rattle.worm_device.specs.ReadRows.{ReadsRow};
ghost use Rattle.worm_device.specs.Rows.{WritesRow};
ghost use Rattle.host_files.specs.Device.{device_over};
ghost use Rattle.host_files.specs.Proper.{is_device};

use crate::page::cells_on_page;
use crate::{FileDevice, HostFile};
use cell_types::Cell;
use worm_device::{Device, Failed, RowWritten, Written};

impl<F: HostFile> Device for FileDevice<F> {
    ghost state = { λ device. device_over device.cells device.reads (F.state device.file) };

    fn cells(&self) -> u32 {
        self.cells
    }

    fn read(&mut self, at: u32) -> Result<Option<Cell>, Failed> {
        self.reads = self.reads.saturating_add(1);
        self.pages.read(&mut self.file, self.cells, at)
    }

    fn read_row(&mut self, at: u32, cells: &mut [Option<Cell>]) -> Result<(), Failed> {
        self.reads = self.reads.saturating_add(cells.len() as u64);
        self.pages.read_row(&mut self.file, self.cells, at, cells)
    }

    /// Where they lie on a page that is held it answers. Else the file itself is asked, and no page is read for them:
    /// that would take 4,096 bytes for a few cells.
    fn read_bytes(&mut self, at: u32, bytes: &mut [u8]) -> Result<(), Failed> {
        self.reads = self.reads.saturating_add((bytes.len() / 16) as u64);
        if self.pages.copy_held(at, bytes) {
            return Ok(());
        }
        self.file.read_at(bytes, 16 * u64::from(at))
    }

    fn write(&mut self, at: u32, value: Cell) -> Result<Written, Failed> {
        let bytes = value.bytes();
        let from = 16 * u64::from(at);
        let mut found = [0; 16];
        self.file.read_at(&mut found, from)?;
        if let Some(found) = Cell::from_bytes(found) {
            self.pages.put(at, found);
            return Ok(Written::Taken(found));
        }
        match self.file.write_at(&bytes, from) {
            Ok(()) => {
                self.pages.put(at, value);
                Ok(Written::Done)
            }
            Err(failed) => {
                // Some of the bytes may have got there, so the page is read anew.
                self.pages.forget(at);
                Err(failed)
            }
        }
    }

    fn write_row(&mut self, at: u32, values: &[Cell]) -> Result<RowWritten, Failed> {
        let mut done = 0;
        while done < values.len() {
            let cell = at + done as u32;
            let end = done + cells_on_page(cell, values.len() - done);
            match self.write_piece(cell, &values[done..end])? {
                RowWritten::Whole => done = end,
                other => return Ok(other),
            }
        }
        Ok(RowWritten::Whole)
    }

    fn sync(&mut self) -> Result<(), Failed> {
        self.file.sync()
    }

    ghost proper = { λ device. is_device device.cells device.reads (F.state device.file) device.some_cells
        device.most_cells device.inside device.stands (F.HostFile.proper device.file) };
}
