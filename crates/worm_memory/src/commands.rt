//! Beginning a command on a device in memory, and planning for it: what fails, where it stops, what others write.
ghost use Rattle.std.specs.Prelude.{◌*◌, ◌≡◌, ◌≤◌, ◌<◌, ◌+◌, if◌then◌else◌, is_ok, vec_len};
ghost use Rattle.worm_memory.specs.Memory.{is_ample, is_early, with_begin, with_failure, with_planned, with_stop};
ghost use Rattle.worm_memory.specs.Device.{memory_of, room_of, HasMarkRoom};

use crate::moment::{Moment, Timed};
use crate::{Mark, MemoryDevice};
use cell_types::{Cell, NoMemory, memory};

impl MemoryDevice {
    /// Begins a command: the numbers of the command before and the counts so far go into a mark. Then no step and no
    /// call has been made, and nothing is planned. What stands stays, and so do the counts.
    ///
    /// Where the record has room for two changes of each cell, the command goes by its plan: no call of it finds too
    /// little room, and faults and foreign writes are those that are planned before its first call.
    pub fn begin(&mut self)
        requires ready { HasMarkRoom self.old }
        ensures begins { memory_of self.new
            ≡ with_begin (is_ample (memory_of self.old).cells (room_of self.old)) (memory_of self.old) }
        ensures room { room_of self.new ≡ room_of self.old }
    {
        let ample = self.has_ample_room();
        let mark = Mark {
            steps: self.schedule.steps,
            calls: self.schedule.calls,
            changes: self.changes.len(),
            faults: self.faults,
            foreign_writes: self.foreign_writes,
            reads: self.reads,
        };
        self.marks.push_reserved(mark);
        self.schedule.begin();
        self.by_plan = ample;
        self.ample = ample;
    }

    /// Plans that the call which the moment names fails: it counts a fault, and changes nothing itself. Where there is
    /// no memory for the plan, nothing changes. A command that is planned once a call was made does not go by its plan.
    pub fn fail_at(&mut self, moment: Moment) -> Result<(), NoMemory>
        ensures planned { memory_of self.new ≡
            (if is_ok result then with_failure (memory_of self.old) moment else memory_of self.old) }
        ensures room { room_of self.new ≡ room_of self.old }
        ensures cells { (memory_of self.new).cells ≡ (memory_of self.old).cells }
    {
        let is_early = self.is_early();
        let Ok(()) = self.schedule.fails.push(moment) else {
            return Err(memory::lacked_elsewhere());
        };
        self.by_plan = is_early;
        Ok(())
    }

    /// Plans that each call fails once so many steps or calls have been made as the moment says; the call of that
    /// number is still made, and after number 0 none is. It takes the place of what was planned so before.
    pub fn stop_after(&mut self, moment: Moment)
        ensures planned { memory_of self.new ≡ with_stop (memory_of self.old) moment }
        ensures room { room_of self.new ≡ room_of self.old }
    {
        self.by_plan = self.is_early();
        self.schedule.stop = Some(moment);
    }

    /// Plans that somebody else writes a cell right before the call that the moment names, as `foreign` does; where a
    /// blank cell then has no room in the record, that call fails. Those of one call are made in the order in which
    /// they were planned. Where there is no memory for the plan, nothing changes.
    pub fn foreign_before(&mut self, moment: Moment, at: u32, value: Cell) -> Result<(), NoMemory>
        requires { at < (memory_of self.old).cells }
        ensures planned { memory_of self.new ≡ (if is_ok result
            then with_planned (memory_of self.old) (record { before = moment; at = at; value = value })
            else memory_of self.old) }
        ensures room { room_of self.new ≡ room_of self.old }
        ensures cells { (memory_of self.new).cells ≡ (memory_of self.old).cells }
    {
        let is_early = self.is_early();
        let timed = Timed {
            before: moment,
            at,
            value,
        };
        let Ok(()) = self.schedule.foreign.push(timed) else {
            return Err(memory::lacked_elsewhere());
        };
        self.by_plan = is_early;
        Ok(())
    }

    /// Whether the command goes by its plan, and no call has been made yet.
    fn is_early(&self) -> bool
        ensures { result ≡ is_early (memory_of self.now) }
    {
        self.by_plan && self.schedule.calls == 0
    }

    /// Whether there is room for two changes of each cell.
    fn has_ample_room(&self) -> bool
        ensures { result ≡ is_ample (memory_of self.now).cells (room_of self.now) }
    {
        2 * (self.cells.len() as u64) <= u64::from(self.spare)
    }
}
