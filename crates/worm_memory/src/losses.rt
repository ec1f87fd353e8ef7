//! A crash of a device in memory: what it takes, and what stays.
ghost use Rattle.std.specs.Prelude.{◌-◌, ◌≡◌, ◌<◌, ◌≤◌, ◌+◌, ◌++◌, ℕ, length, replicate, slice_index, OnOk, vec_len, vec_capacity};
ghost use Rattle.worm_memory.specs.Device.{memory_of, room_of, state_of, CrashEnds};
ghost use Rattle.worm_memory.specs.Losses.{crash_cells, crash_changes, kept_count, kept_image};
ghost use Rattle.worm_memory.specs.Outcomes.{with_crash};
ghost use Rattle.worm_memory.specs.Unsure.{is_among, unsure_of};

use crate::{CallNumbers, Change, MemoryDevice};
use cell_types::Cell;
use worm_device::Failed;

/// How many cells a crash could take, and how many of them it left.
#[derive(Clone, Copy, Debug, PartialEq, Eq)]
pub struct Crash {
    /// How many of the cells that were not sure stay.
    pub kept: u32,
    /// How many written cells were not sure.
    pub unsure: u32,
}

impl MemoryDevice {
    /// A crash: of the cells that are not sure those in `keep` stay, and all that stands then is sure. Numbers in
    /// `keep` of other cells, or of none, have no effect. What is planned for the present command stays planned, but
    /// the command does not go by its plan any more.
    ///
    /// It uses the room of one change, and of one more for each cell that was not sure. Where the record has not that
    /// room, the crash fails: one fault is counted, and nothing else changes.
    pub fn crash(&mut self, keep: &[u32]) -> Result<Crash, Failed>
        ensures ends { CrashEnds keep.now self.old self.new result }
        ensures image { OnOk result ((cell : ℕ) → (state_of self.new).image cell
            ≡ kept_image keep.now (state_of self.old).image (state_of self.old).sure cell) }
        ensures sure { OnOk result ((cell : ℕ) → (state_of self.new).sure cell ≡ (state_of self.new).image cell) }
        ensures cells { (memory_of self.new).cells ≡ (memory_of self.old).cells }
    {
        let unsure = self.unsure.len();
        if unsure >= self.spare as usize {
            self.by_plan = false;
            return Err(self.fail());
        }
        let (kept, unsure) = (count_kept(&self.unsure, keep) as u32, unsure as u32);
        self.take(keep, unsure);
        Ok(Crash { kept, unsure })
    }

    /// Takes what is not kept of so many unsure cells, where the record has the room for it.
    fn take(&mut self, keep: &[u32], unsure: u32)
        requires all { unsure ≡ length (unsure_of (memory_of self.old).changes) }
        requires room { unsure + 1 ≤ room_of self.old }
        ensures taken { memory_of self.new ≡ with_crash (memory_of self.old) keep.now }
        ensures room { room_of self.new + unsure + 1 ≡ room_of self.old }
    {
        // A crash is no call: it takes what the plan may have put, and may use more room than calls do.
        self.by_plan = false;
        self.ample = false;
        let numbers = self.schedule.numbers();
        lose(&mut self.cells, &mut self.changes, &self.unsure, keep);
        note(&mut self.made_in, numbers, self.changes.len());
        self.unsure.clear();
        self.spare = self.spare - unsure - 1;
    }
}

/// How many of these cells are kept.
fn count_kept(unsure: &[u32], keep: &[u32]) -> usize
    ensures counts { result ≡ kept_count keep.now unsure.now }
    ensures most { result ≤ length unsure.now }
{
    unsure.iter().filter(|at| is_kept(keep, **at)).count()
}

/// Takes each of these cells that is not kept, and records it.
fn lose(cells: &mut [Option<Cell>], changes: &mut Vec<Change>, unsure: &[u32], keep: &[u32])
    requires inside { (i : ℕ) → i < length unsure.now → slice_index unsure.now i < length cells.old }
    requires room { length unsure.now + 1 + vec_len changes.old ≤ vec_capacity changes.old }
    ensures changes { changes.new.items ≡ changes.old.items ++ crash_changes keep.now unsure.now }
    ensures cells { cells.new ≡ crash_cells keep.now unsure.now cells.old }
    ensures most { vec_len changes.new ≤ vec_len changes.old + length unsure.now + 1 }
    ensures capacity { vec_capacity changes.new ≡ vec_capacity changes.old }
{
    for at in unsure {
        if !is_kept(keep, *at) {
            cells[*at as usize] = None;
            changes.push_reserved(Change::Lost { at: *at });
        }
    }
    changes.push_reserved(Change::Crashed);
}

/// Notes these numbers of each change more, until there are so many.
fn note(made_in: &mut Vec<CallNumbers>, numbers: CallNumbers, changes: usize)
    requires most { changes ≤ vec_capacity made_in.old }
    requires least { vec_len made_in.old ≤ changes }
    ensures notes { made_in.new.items ≡ made_in.old.items ++ replicate (changes - vec_len made_in.old) numbers }
    ensures all { vec_len made_in.new ≡ changes }
    ensures capacity { vec_capacity made_in.new ≡ vec_capacity made_in.old }
{
    for at in made_in.len()..changes {
        made_in.push_reserved(numbers);
    }
}

/// Whether the cell is one of those that stay.
fn is_kept(keep: &[u32], at: u32) -> bool
    ensures { result ≡ is_among at keep.now }
{
    for other in keep {
        if at == *other {
            return true;
        }
    }
    false
}
