//! A device in memory as a device.
ghost use Rattle.std.specs.Prelude.{◌≡◌, ◌<◌, ℕ, true, false, is_err, IsOk};
ghost use Rattle.worm_device.specs.Calls.{Reads, Writes, Syncs};
ghost use Rattle.worm_memory.specs.Memory.{at_step, with_call, with_read, IsBeforeStep, IsStepOpen};
ghost use Rattle.worm_memory.specs.Plans.{no_plan};
ghost use Rattle.worm_memory.specs.Device.{memory_of, outcome, room_of, state_of};
ghost use Rattle.worm_memory.specs.Outcomes.{goes_on, arrived, after_write, after_sync};
ghost use Rattle.worm_memory.specs.Proper.{is_device};

use crate::{Change, MemoryDevice};
use cell_types::Cell;
use worm_device::{Device, Failed, Written};

impl Device for MemoryDevice {
    ghost state = { state_of };

    fn cells(&self) -> u32
        ensures cells { result ≡ (memory_of self.now).cells }
    {
        self.cell_count()
    }

    /// What stands in a cell, `None` where it is blank. It counts as a read also where it fails.
    fn read(&mut self, at: u32) -> Result<Option<Cell>, Failed>
        requires { at < (memory_of self.old).cells }
        ensures reads { Reads at (state_of self.old) (state_of self.new) result }
        ensures becomes { outcome self.new (is_err result)
            ≡ arrived false (with_read (memory_of self.old)) (room_of self.old) }
        ensures unplanned { (memory_of self.old).plan ≡ no_plan → IsOk result }
    {
        self.count_read();
        self.arrive(false)?;
        Ok(self.found(at))
    }

    /// Writes a blank cell. A written one stays as it is.
    fn write(&mut self, at: u32, value: Cell) -> Result<Written, Failed>
        requires { at < (memory_of self.old).cells }
        ensures writes { Writes at value (state_of self.old) (state_of self.new) result }
        ensures becomes { outcome self.new (is_err result)
            ≡ after_write at value (arrived true (memory_of self.old) (room_of self.old)) }
        ensures unplanned { (memory_of self.old).plan ≡ no_plan → outcome self.new (is_err result)
            ≡ after_write at value (goes_on (with_call true (memory_of self.old)) (room_of self.old)) }
    {
        self.arrive(true)?;
        self.finish_write(at, value)
    }

    /// Makes each cell sure that was written when the call began. Where each is, there is nothing to do.
    fn sync(&mut self) -> Result<(), Failed>
        ensures syncs { Syncs (state_of self.old) (state_of self.new) result }
        ensures becomes { outcome self.new (is_err result)
            ≡ after_sync (arrived true (memory_of self.old) (room_of self.old)) }
        ensures unplanned { (memory_of self.old).plan ≡ no_plan → outcome self.new (is_err result)
            ≡ after_sync (goes_on (with_call true (memory_of self.old)) (room_of self.old)) }
    {
        self.arrive(true)?;
        self.finish_sync()
    }

    ghost proper = { λ device. is_device (memory_of device) device.some_cells device.most_cells device.are_changes };
}

impl MemoryDevice {
    /// Writes a cell, once the call has come.
    fn finish_write(&mut self, at: u32, value: Cell) -> Result<Written, Failed>
        requires inside { at < (memory_of self.old).cells }
        requires in_step { self.old.by_plan ≡ true → IsStepOpen (memory_of self.old) }
        ensures writes { (before : ℕ) → IsBeforeStep before (memory_of self.old)
            → Writes at value (at_step before (state_of self.old)) (state_of self.new) result }
        ensures becomes { outcome self.new (is_err result)
            ≡ after_write at value (goes_on (memory_of self.old) (room_of self.old)) }
    {
        if let Some(found) = self.found(at) {
            return Ok(Written::Taken(found));
        }
        if self.room() == 0 {
            return Err(self.fail());
        }
        self.put(at, value, Change::Wrote { at, value });
        Ok(Written::Done)
    }

    /// Makes all sure that stands, once the call has come.
    fn finish_sync(&mut self) -> Result<(), Failed>
        requires in_step { self.old.by_plan ≡ true → IsStepOpen (memory_of self.old) }
        ensures syncs { (before : ℕ) → IsBeforeStep before (memory_of self.old)
            → Syncs (at_step before (state_of self.old)) (state_of self.new) result }
        ensures becomes { outcome self.new (is_err result)
            ≡ after_sync (goes_on (memory_of self.old) (room_of self.old)) }
    {
        if self.unsure.is_empty() {
            return Ok(());
        }
        if self.room() == 0 {
            return Err(self.fail());
        }
        self.record_sync();
        Ok(())
    }
}
