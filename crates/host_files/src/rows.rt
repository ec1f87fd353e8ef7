//! Neighbouring cells that are written to a file at once, where each of them is blank.
ghost use Rattle.std.specs.Prelude.{◌≡◌, ◌≤◌, ◌+◌, ◌*◌, ◌%◌, IsTrue, length, replicate};
ghost use Rattle.worm_device.specs.Rows.{WritesRow};
ghost use Rattle.host_files.specs.Rows.{AreRow};

use crate::page::{PAGE_BYTES, put_at};
use crate::{FileDevice, HostFile};
use cell_types::Cell;
use worm_device::{Device, Failed, RowWritten, Written};

/// Whether all of them are zero.
fn are_zeros(bytes: &[u8]) -> bool
    ensures { IsTrue result → bytes.now ≡ replicate (length bytes.now) 0 }
{
    bytes.iter().all(|byte| *byte == 0)
}

/// Puts these cells onto a page, one after another from its first place on.
fn fill(bytes: &mut [u8; PAGE_BYTES], values: &[Cell])
    requires { length values.now ≤ 256 }
    ensures { AreRow values.now bytes.new }
{
    for place in 0..values.len() {
        let value = values[place];
        let _bytes = value.bytes();
        put_at(bytes, place as u8, value);
    }
}

impl<F: HostFile> FileDevice<F> {
    ghost use Rattle.host_files.specs.Over.{state_over};

    /// Writes neighbouring cells one after another.
    fn write_each(&mut self, at: u32, values: &[Cell]) -> Result<RowWritten, Failed>
        requires { at + length values.now ≤ (state_over self.old).cells }
        ensures { WritesRow at values.now (state_over self.old) (state_over self.new) result }
    {
        for place in 0..values.len() {
            let cell = at + place as u32;
            let value = values[place];
            let written = self.write(cell, value)?;
            if let Written::Taken(found) = written {
                if found != value {
                    return Ok(RowWritten::Other(cell, found));
                }
            }
        }
        Ok(RowWritten::Whole)
    }

    /// Writes neighbouring cells of one page: all at once where each of them is blank, and else one after another.
    pub(crate) fn write_piece(&mut self, at: u32, values: &[Cell]) -> Result<RowWritten, Failed>
        requires inside { at + length values.now ≤ (state_over self.old).cells }
        requires page { at % 256 + length values.now ≤ 256 }
        ensures { WritesRow at values.now (state_over self.old) (state_over self.new) result }
    {
        let from = 16 * u64::from(at);
        let size = 16 * values.len();
        let mut room = [0; PAGE_BYTES];
        let found = &mut room[..size];
        self.file.read_at(found, from)?;
        if !are_zeros(found) {
            return self.write_each(at, values);
        }
        let mut bytes = [0; PAGE_BYTES];
        fill(&mut bytes, values);
        // Where the write fails, any of the bytes may have got there, so the page is read anew.
        self.pages.forget(at);
        self.file.write_places(&bytes[..size], from)?;
        Ok(RowWritten::Whole)
    }
}
