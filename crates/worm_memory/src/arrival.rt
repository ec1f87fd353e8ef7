//! What happens before a call of a device in memory does its own work: it is counted, others write, and it may fail.
ghost use Rattle.std.specs.Prelude.{◌≡◌, ◌<◌, ◌^◌, true, false, length, is_err, slice_get, IsErr, Some};
ghost use Rattle.worm_memory.specs.Memory.{with_call, IsStepOpen};
ghost use Rattle.worm_memory.specs.Plans.{is_refused};
ghost use Rattle.worm_memory.specs.Device.{memory_of, outcome, room_of, Stays};
ghost use Rattle.worm_memory.specs.Outcomes.{goes_on, after_others, after_timed, arrived, others_done};

use crate::MemoryDevice;
use crate::moment::Timed;
use worm_device::Failed;

impl MemoryDevice {
    /// Comes to the next call, which is a step or not. Where this fails, the call has failed, and that is counted.
    pub(crate) fn arrive(&mut self, is_step: bool) -> Result<(), Failed>
        ensures arrives { outcome self.new (is_err result) ≡ arrived is_step (memory_of self.old) (room_of self.old) }
        ensures in_step { is_err result ≡ false → is_step ≡ true → self.new.by_plan ≡ true
            → IsStepOpen (memory_of self.new) }
        ensures cells { (memory_of self.new).cells ≡ (memory_of self.old).cells }
        ensures faults { (memory_of self.old).faults < 2 ^ 64 }
        ensures foreign_writes { (memory_of self.old).foreign_writes < 2 ^ 64 }
        ensures steps { (memory_of self.old).steps < 2 ^ 64 }
        ensures one_each { length (memory_of self.old).made_in ≡ length (memory_of self.old).changes }
    {
        self.read_counts();
        // Once the call is counted its moment is reached, and what was planned for it is not done yet: the command goes
        // by its plan again when that is done.
        let by_plan = self.by_plan;
        self.by_plan = false;
        let come = self.come(is_step);
        self.by_plan = by_plan;
        come
    }

    /// That the counts are of 64 bits is known to those who read them.
    fn read_counts(&self)
        ensures faults { (memory_of self.now).faults < 2 ^ 64 }
        ensures foreign_writes { (memory_of self.now).foreign_writes < 2 ^ 64 }
        ensures steps { (memory_of self.now).steps < 2 ^ 64 }
        ensures calls { (memory_of self.now).calls < 2 ^ 64 }
    {
        let _faults = self.faults;
        let _foreign_writes = self.foreign_writes;
        let _steps = self.schedule.steps;
        let _calls = self.schedule.calls;
    }

    /// Counts the call, lets others write, and fails where that was planned.
    fn come(&mut self, is_step: bool) -> Result<(), Failed>
        requires apart { self.old.by_plan ≡ false }
        ensures arrives { outcome self.new (is_err result) ≡ arrived is_step (memory_of self.old) (room_of self.old) }
        ensures cells { (memory_of self.new).cells ≡ (memory_of self.old).cells }
        ensures ample { self.new.ample ≡ self.old.ample }
        ensures roomy { self.old.ample ≡ true
            → (others_done is_step (memory_of self.old) (room_of self.old)).failed ≡ false }
    {
        let is_refused = self.count_call(is_step);
        self.let_others_write(is_step)?;
        if is_refused {
            return Err(self.fail());
        }
        Ok(())
    }

    /// Counts a call, and answers whether the plan makes it fail.
    fn count_call(&mut self, is_step: bool) -> bool
        requires apart { self.old.by_plan ≡ false }
        ensures refused { result ≡ is_refused is_step (memory_of self.old).plan (memory_of self.old).steps
            (memory_of self.old).calls }
        ensures counted { memory_of self.new ≡ with_call is_step (memory_of self.old) }
        ensures room { room_of self.new ≡ room_of self.old }
        ensures ample { self.new.ample ≡ self.old.ample }
    {
        self.schedule.count_call(is_step)
    }

    /// Others write what was planned before this call, in order, up to one that fails.
    fn let_others_write(&mut self, is_step: bool) -> Result<(), Failed>
        requires apart { self.old.by_plan ≡ false }
        ensures others { outcome self.new (is_err result)
            ≡ after_others is_step (memory_of self.old).plan.foreign (goes_on (memory_of self.old) (room_of self.old)) }
        ensures cells { (memory_of self.new).cells ≡ (memory_of self.old).cells }
        ensures ample { self.new.ample ≡ self.old.ample }
        ensures room { IsErr result → self.old.ample ≡ false }
        ensures apart { self.new.by_plan ≡ false }
    {
        for place in 0..self.schedule.foreign.len() {
            if let Some(timed) = self.schedule.planned(place) {
                self.write_planned(is_step, timed)?;
            }
        }
        Ok(())
    }

    /// Somebody else writes a cell, where this was planned before this call.
    fn write_planned(&mut self, is_step: bool, timed: Timed) -> Result<(), Failed>
        requires inside { timed.at < (memory_of self.old).cells }
        requires apart { self.old.by_plan ≡ false }
        ensures writes { outcome self.new (is_err result)
            ≡ after_timed is_step timed (memory_of self.old) (room_of self.old) }
        ensures plan { (memory_of self.new).plan ≡ (memory_of self.old).plan }
        ensures cells { (memory_of self.new).cells ≡ (memory_of self.old).cells }
        ensures ample { self.new.ample ≡ self.old.ample }
        ensures room { IsErr result → self.old.ample ≡ false }
        ensures apart { self.new.by_plan ≡ false }
    {
        if !timed
            .before
            .names(is_step, self.schedule.steps, self.schedule.calls)
        {
            return Ok(());
        }
        if self.found(timed.at).is_some() {
            return Ok(());
        }
        self.put_foreign(timed.at, timed.value)
    }
}
