//! The device, its memory, and the room of its record.
ghost use Rattle.std.specs.Prelude.{◌≡◌, ◌≤◌, ◌<◌, ◌+◌, ℕ, slice_get, Some, vec_capacity, vec_len};
ghost use Rattle.cell_types.specs.declared.geometry.TheConstants.{MAX_CELLS};
ghost use Rattle.std.proofs.Props.{props};
ghost use Rattle.std.specs.Prelude.{◌*◌, ◌^◌, ◌-◌, drop, true, false};
ghost use Rattle.std.specs.List.{list_all};
ghost use Rattle.worm_device.specs.Counts.{Rose};
ghost use Rattle.worm_memory.specs.Plans.{AreWritesInside, failures_reached, stands_if_reached, is_called_for, last_changes, last_faults, last_foreign_writes, may_be_written, may_fail, may_stop, must_fail, plan_of, writes_reached};
ghost use Rattle.worm_memory.specs.Runs.{HasRun};
ghost use Rattle.worm_memory.specs.Unsure.{blanks, unsure_of};
ghost use Rattle.worm_memory.specs.Worlds.{blank, foreign_writes_in, world, AreChanges, AreChanges-prop, HasBecome, IsAllSure, PutsInto};

use crate::schedule::Schedule;
use crate::{CallNumbers, Change, Mark};
use cell_types::{Cell, NoMemory, memory};
use std::alloc::Global;
use worm_device::{Failed, Written};

/// A device in memory. Contracts see the words of `Memory`: `memory_of` for all that it tells, and `room_of`
/// for how many further changes its record has room for.
#[derive(Drop)]
pub struct MemoryDevice {
    pub(crate) cells: Vec<Option<Cell>>,
    pub(crate) changes: Vec<Change>,
    /// Of each change, which call made it.
    pub(crate) made_in: Vec<CallNumbers>,
    /// The cells that are written and not sure, in the order in which they were written.
    pub(crate) unsure: Vec<u32>,
    pub(crate) marks: Vec<Mark>,
    /// How many further changes there is room for.
    pub(crate) spare: u32,
    pub(crate) schedule: Schedule,
    pub(crate) faults: u64,
    pub(crate) reads: u64,
    pub(crate) foreign_writes: u64,
    /// Whether the present command goes by its plan.
    pub(crate) by_plan: bool,
    /// Whether the record has room for all that calls can record: two changes for each blank cell, and one for each
    /// that is not sure.
    pub(crate) ample: bool,
    ghost some_cells: { 1 ≤ vec_len cells },
    ghost most_cells: { vec_len cells ≤ MAX_CELLS },
    ghost are_changes: { AreChanges (vec_len cells) blank changes.items } by { AreChanges-prop (vec_len cells) blank changes.items },
    ghost holds: { HasBecome cells.items (world changes.items).image } by { Prim.hlevel props },
    ghost are_unsure: { unsure.items ≡ unsure_of changes.items } by { Prim.hlevel props },
    ghost changes_fit: { vec_len changes + spare ≤ vec_capacity changes },
    ghost made_fit: { vec_len made_in + spare ≤ vec_capacity made_in },
    ghost one_each: { vec_len made_in ≡ vec_len changes },
    ghost unsure_fit: { vec_len unsure + spare ≤ vec_capacity unsure },
    ghost planned_inside: { AreWritesInside (vec_len cells) schedule.foreign.items } by { Prim.hlevel props },
    ghost few: { blanks cells.items + vec_len unsure ≤ vec_len cells },
    ghost roomy: { ample ≡ true → 2 * blanks cells.items + vec_len unsure ≤ spare } by { Prim.hlevel props },
    ghost steps_fit: { schedule.steps ≤ schedule.calls },
    ghost later: { last_faults marks.items ≤ faults },
    ghost longer: { last_changes marks.items ≤ vec_len changes },
    ghost counted: { foreign_writes ≡ foreign_writes_in changes.items } by { Prim.hlevel props },
    ghost backed: { by_plan ≡ true → ample ≡ true } by { Prim.hlevel props },
    ghost ran: { by_plan ≡ true → ∥ HasRun (plan_of schedule) marks.items (record {
      changes = changes.items;
      made_in = made_in.items;
      steps = schedule.steps;
      calls = schedule.calls;
      faults = faults;
      foreign_writes = foreign_writes;
    }) ∥₁ } by { Prim.hlevel props },
    ghost none_failed: { by_plan ≡ true → may_fail (plan_of schedule) schedule.steps schedule.calls ≡ false
        → faults ≡ last_faults marks.items } by { Prim.hlevel props },
    ghost most_failed: { by_plan ≡ true → may_stop schedule.stop schedule.steps schedule.calls ≡ false
        → schedule.calls < 2 ^ 64 - 1
        → faults ≤ last_faults marks.items + failures_reached (plan_of schedule) schedule.steps schedule.calls } by { Prim.hlevel props },
    ghost some_failed: { by_plan ≡ true → must_fail (plan_of schedule) schedule.steps schedule.calls ≡ true
        → Rose (last_faults marks.items) faults } by { Prim.hlevel props },
    ghost none_written: { by_plan ≡ true
        → may_be_written (plan_of schedule) schedule.steps schedule.calls ≡ false
        → foreign_writes ≡ last_foreign_writes marks.items } by { Prim.hlevel props },
    ghost most_written: { by_plan ≡ true → schedule.calls < 2 ^ 64 - 1
        → foreign_writes ≤ last_foreign_writes marks.items + writes_reached (plan_of schedule) schedule.steps schedule.calls } by { Prim.hlevel props },
    ghost named: { by_plan ≡ true
        → list_all (is_called_for schedule.steps schedule.calls schedule.foreign.items)
        (drop (last_changes marks.items) changes.items) ≡ true } by { Prim.hlevel props },
    ghost stands: { by_plan ≡ true
        → list_all (stands_if_reached schedule.steps schedule.calls (world changes.items).image) schedule.foreign.items ≡ true } by { Prim.hlevel props },
}

impl MemoryDevice {
    ghost use Rattle.std.specs.Prelude.{◌≡◌, ◌≤◌, ◌<◌, ◌^◌, ◌-◌, ◌+◌, ◌↔◌, is_err, length, min, [], None, IsErr, IsOk, IsTrue, IfOk, OnOk, OnErr};
    ghost use Rattle.worm_memory.specs.Memory.{IsStepOpen, KeepsPlan, Memory, with_foreign, with_read};
    ghost use Rattle.worm_memory.specs.Plans.{no_plan};
    ghost use Rattle.worm_memory.specs.Outcomes.{recorded};
    ghost use Rattle.worm_memory.specs.declared.change.Change.TheVariants.{Synced, Wrote};
    ghost use Rattle.worm_memory.specs.Device.{memory_of, outcome, room_of, state_of, HasMarkRoom, Records, RecordsPut, CountsFault};
    ghost use Rattle.worm_memory.specs.Device.{ForeignEnds, ForeignWrites};

    /// A device of so many blank cells, 1 to 2,147,483,648. Its record has no room yet, and nothing is planned.
    pub fn new(alloc: Global, cells: u32) -> Result<MemoryDevice, NoMemory>
        requires some { 1 ≤ cells }
        requires most { cells ≤ MAX_CELLS }
        ensures blank { IfOk result (λ device. memory_of device ≡ record {
          cells = cells;
          changes = [];
          made_in = [];
          marks = [];
          steps = 0;
          calls = 0;
          plan = no_plan;
          faults = 0;
          reads = 0;
          foreign_writes = 0;
          by_plan = false;
        }) }
        ensures room { IfOk result (λ device. room_of device ≡ 0) }
    {
        let blank = memory::repeated(alloc, None, cells as usize)?;
        Ok(MemoryDevice {
            cells: blank,
            changes: Vec::new(alloc),
            made_in: Vec::new(alloc),
            unsure: Vec::new(alloc),
            marks: Vec::new(alloc),
            spare: 0,
            schedule: Schedule::new(alloc),
            faults: 0,
            reads: 0,
            foreign_writes: 0,
            by_plan: false,
            ample: false,
        })
    }

    /// Takes memory until so many further changes can be recorded, and the mark of one more command. Two changes for each
    /// cell are enough for the calls of a command, and one for each cell and one more for a crash. Nothing else changes;
    /// where there is no memory, the mark alone may have got its room.
    pub fn reserve(&mut self, changes: u32) -> Result<(), NoMemory>
        ensures room { OnOk result (changes ≤ room_of self.new) }
        ensures ready { OnOk result (HasMarkRoom self.new) }
        ensures same { memory_of self.new ≡ memory_of self.old }
        ensures keeps { room_of self.old ≤ room_of self.new }
        ensures enough { changes ≤ room_of self.old → HasMarkRoom self.old → IsOk result }
        ensures err { OnErr result (room_of self.new ≡ room_of self.old) }
    {
        self.reserve_mark()?;
        if changes <= self.spare {
            return Ok(());
        }
        let more = changes as usize;
        self.reserve_changes(more)?;
        self.reserve_unsure(more)?;
        self.reserve_made_in(more)?;
        self.spare = changes;
        Ok(())
    }

    /// Takes memory for so many further changes.
    fn reserve_changes(&mut self, more: usize) -> Result<(), NoMemory>
        ensures fits { OnOk result (vec_len self.new.changes + more ≤ vec_capacity self.new.changes) }
        ensures same { memory_of self.new ≡ memory_of self.old }
        ensures room { room_of self.new ≡ room_of self.old }
        ensures ready { HasMarkRoom self.old → HasMarkRoom self.new }
    {
        memory::reserve(&mut self.changes, more)
    }

    /// Takes memory for the cells that so many further changes leave unsure.
    fn reserve_unsure(&mut self, more: usize) -> Result<(), NoMemory>
        ensures fits { OnOk result (vec_len self.new.unsure + more ≤ vec_capacity self.new.unsure) }
        ensures same { memory_of self.new ≡ memory_of self.old }
        ensures room { room_of self.new ≡ room_of self.old }
        ensures changes { vec_len self.old.changes + more ≤ vec_capacity self.old.changes
            → vec_len self.new.changes + more ≤ vec_capacity self.new.changes }
        ensures ready { HasMarkRoom self.old → HasMarkRoom self.new }
    {
        memory::reserve(&mut self.unsure, more)
    }

    /// Takes memory for which calls make so many further changes.
    fn reserve_made_in(&mut self, more: usize) -> Result<(), NoMemory>
        ensures fits { OnOk result (vec_len self.new.made_in + more ≤ vec_capacity self.new.made_in) }
        ensures same { memory_of self.new ≡ memory_of self.old }
        ensures room { room_of self.new ≡ room_of self.old }
        ensures changes { vec_len self.old.changes + more ≤ vec_capacity self.old.changes
            → vec_len self.new.changes + more ≤ vec_capacity self.new.changes }
        ensures unsure { vec_len self.old.unsure + more ≤ vec_capacity self.old.unsure
            → vec_len self.new.unsure + more ≤ vec_capacity self.new.unsure }
        ensures ready { HasMarkRoom self.old → HasMarkRoom self.new }
    {
        memory::reserve(&mut self.made_in, more)
    }

    /// Takes memory for the mark of one more command.
    fn reserve_mark(&mut self) -> Result<(), NoMemory>
        ensures ready { OnOk result (HasMarkRoom self.new) }
        ensures same { memory_of self.new ≡ memory_of self.old }
        ensures room { room_of self.new ≡ room_of self.old }
        ensures enough { HasMarkRoom self.old → IsOk result }
    {
        memory::reserve(&mut self.marks, 1)
    }

    /// How many further changes can be recorded, where that is below 2^32, and else 2^32 - 1.
    pub fn room(&self) -> u32
        ensures { result ≡ min (room_of self.now) (2 ^ 32 - 1) }
    {
        self.spare
    }

    /// The changes so far, in order: what a crash could have left follows from them.
    pub fn changes(&self) -> &[Change]
        ensures same { result.now ≡ (memory_of self.now).changes }
        ensures are_changes { AreChanges (memory_of self.now).cells blank result.now }
    {
        &self.changes
    }

    /// Of each change, which call made it.
    pub fn made_in(&self) -> &[CallNumbers]
        ensures same { result.now ≡ (memory_of self.now).made_in }
        ensures one_each { length result.now ≡ length (memory_of self.now).changes }
    {
        &self.made_in
    }

    /// Whether there is room for the mark of one more command.
    pub fn can_begin(&self) -> bool
        ensures { IsTrue result ↔ HasMarkRoom self.now }
    {
        self.marks.len() < self.marks.capacity()
    }

    /// Whether the present command goes by its plan: it began with room for two changes of each cell, it was planned
    /// before its first call, and neither `foreign` nor `crash` was called since.
    pub fn kept_plan(&self) -> bool
        ensures told { result ≡ (memory_of self.now).by_plan }
        ensures kept { (memory_of self.now).by_plan ≡ true → KeepsPlan (memory_of self.now) }
    {
        self.by_plan
    }

    /// What it kept when each command began, in order. The changes up to a mark's number of them stood then.
    pub fn marks(&self) -> &[Mark]
        ensures { result.now ≡ (memory_of self.now).marks }
    {
        &self.marks
    }

    /// How many cells it has.
    pub(crate) fn cell_count(&self) -> u32
        ensures { result ≡ (memory_of self.now).cells }
    {
        self.cells.len() as u32
    }

    /// What stands in a cell.
    pub(crate) fn found(&self, at: u32) -> Option<Cell>
        requires { at < (memory_of self.now).cells }
        ensures { result ≡ (state_of self.now).image at }
    {
        self.cells[at as usize]
    }

    /// Counts a read.
    pub(crate) fn count_read(&mut self)
        ensures counted { memory_of self.new ≡ with_read (memory_of self.old) }
        ensures room { room_of self.new ≡ room_of self.old }
        ensures fits { (memory_of self.old).reads < 2 ^ 64 }
    {
        self.reads = self.reads.saturating_add(1);
    }

    /// Counts a fault. Where the present command goes by its plan, its faults are counted as each call comes.
    pub(crate) fn fail(&mut self) -> Failed
        requires apart { self.old.by_plan ≡ false }
        ensures counted { CountsFault self.old self.new }
        ensures fits { (memory_of self.old).faults < 2 ^ 64 }
        ensures ample { self.new.ample ≡ self.old.ample }
    {
        self.faults = self.faults.saturating_add(1);
        Failed
    }

    /// Puts a value into a blank cell, by this change of the record, which has room. It is counted if it is somebody
    /// else's.
    pub(crate) fn put(&mut self, at: u32, value: Cell, change: Change)
        requires is { PutsInto at value change }
        requires inside { at < (memory_of self.old).cells }
        requires free { (state_of self.old).image at ≡ None }
        requires room { 1 ≤ room_of self.old }
        requires ours { self.old.by_plan ≡ true → change ≡ Wrote at value }
        requires in_step { self.old.by_plan ≡ true → IsStepOpen (memory_of self.old) }
        ensures records { RecordsPut change self.old self.new }
        ensures fits { (memory_of self.old).foreign_writes < 2 ^ 64 }
        ensures ample { self.new.ample ≡ self.old.ample }
    {
        // That the value is one of a written cell is known to those who ask for its bytes.
        let _bytes = value.bytes();
        self.foreign_writes = change.counted_with(self.foreign_writes);
        self.cells[at as usize] = Some(value);
        self.changes.push_reserved(change);
        self.unsure.push_reserved(at);
        self.made_in.push_reserved(self.schedule.numbers());
        self.spare -= 1;
    }

    /// Makes sure all that stands, where something was not sure and the record has room.
    pub(crate) fn record_sync(&mut self)
        requires unsure { IsAllSure (world (memory_of self.old).changes) → ⊥ }
        requires some { 1 ≤ vec_len self.old.unsure }
        requires room { 1 ≤ room_of self.old }
        requires in_step { self.old.by_plan ≡ true → IsStepOpen (memory_of self.old) }
        ensures { Records Synced self.old self.new }
    {
        self.changes.push_reserved(Change::Synced);
        self.unsure.clear();
        self.made_in.push_reserved(self.schedule.numbers());
        self.spare -= 1;
    }

    /// Somebody else writes a cell. A written one stays as it is, and is not counted as a foreign write. After a blank
    /// one the present command does not go by its plan any more.
    pub fn foreign(&mut self, at: u32, value: Cell) -> Result<Written, Failed>
        requires { at < (memory_of self.old).cells }
        ensures writes { ForeignWrites (state_of self.old) (state_of self.new) }
        ensures ends { ForeignEnds at value self.old self.new result }
    {
        if let Some(found) = self.found(at) {
            return Ok(Written::Taken(found));
        }
        self.by_plan = false;
        self.put_foreign(at, value)?;
        Ok(Written::Done)
    }

    /// Somebody else writes a blank cell.
    pub(crate) fn put_foreign(&mut self, at: u32, value: Cell) -> Result<(), Failed>
        requires inside { at < (memory_of self.old).cells }
        requires free { (state_of self.old).image at ≡ None }
        requires apart { self.old.by_plan ≡ false }
        ensures writes { outcome self.new (is_err result)
            ≡ recorded (memory_of self.old) (room_of self.old) (with_foreign (memory_of self.old) at value) }
        ensures called { ForeignWrites (state_of self.old) (state_of self.new) }
        ensures ample { self.new.ample ≡ self.old.ample }
        ensures room { IsErr result → self.old.ample ≡ false }
    {
        if self.room() == 0 {
            return Err(self.fail());
        }
        self.put(at, value, Change::Foreign { at, value });
        Ok(())
    }
}
