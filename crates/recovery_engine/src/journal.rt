//! The journal of a committed slot: copies of the cells that it asks to be written.
ghost use Rattle.std.specs.Prelude.{◌≡◌, ◌<◌, ◌≤◌, ◌+◌, ◌↔◌, ◌^◌, IsOk, IsTrue};
ghost use Rattle.tamper_rules.specs.Journals.{IsIndexRecord};
ghost use Rattle.recovery_engine.specs.Entries.{IsCopy, AreEntries, target_of};
ghost use Rattle.recovery_engine.specs.Putting.{PutsPhase};
ghost use Rattle.worm_device.specs.Calls.{Called};
ghost use Rattle.worm_device.specs.Counts.{IsStill};
ghost use Rattle.cell_types.specs.Image.{IsUnchanged};
ghost use Rattle.recovery_engine.specs.Journal.{JournalEntryEnds, JournalEnds, IsEntryPut};

use crate::put::{Blame, Put, put_cell};
use cell_types::{Cell, Evidence, Fault, RecordCell, address_of, breach, decode};
use tamper_rules::BROKEN_JOURNAL;
use worm_device::Device;

/// Where a journal stands, and which cells it may ask for.
#[derive(Clone, Copy)]
pub struct Journal {
    /// The first of its cells, and how many they are.
    pub place: u32,
    pub count: u32,
    /// The first cell that it may ask for, and the one behind the last.
    pub first: u32,
    pub below: u32,
    /// What is named where one of its cells is blank.
    pub commit: Evidence,
}

/// Whether the cell is one of the index, well-formed at its own address.
fn is_copy(cell: Cell) -> bool
    ensures { IsTrue result ↔ IsCopy cell }
{
    match decode(cell, address_of(cell)) {
        Some(held) => is_index_record(&held),
        None => false,
    }
}

/// Whether a record is one of the index.
fn is_index_record(held: &RecordCell) -> bool
    ensures { IsTrue result ↔ IsIndexRecord held.now }
{
    matches!(
        *held,
        RecordCell::Posting { .. }
            | RecordCell::Jump { .. }
            | RecordCell::Bucket { .. }
            | RecordCell::Child { .. }
    )
}

/// A journal cell, as the cell that it asks for, from this cell on.
fn entry<D: Device>(device: &mut D, journal: &Journal, k: u32, floor: u32) -> Result<Put, Fault>
    requires within { k < journal.now.count }
    requires place { journal.now.place + journal.now.count ≤ (D.state device.old).cells }
    ensures called { Called (D.state device.old) (D.state device.new) }
    ensures quiet { IsStill (D.state device.old).foreign_writes (D.state device.new).foreign_writes →
        IsUnchanged (D.state device.old).image (D.state device.new).image }
    ensures unfailed { IsOk result → (D.state device.new).faults ≡ (D.state device.old).faults }
    ensures ends { JournalEntryEnds journal.now k floor (D.state device.old) (D.state device.new) result }
{
    let at = journal.place + k;
    let Some(cell) = device.read(at)? else {
        return Err(Fault::Tampered(journal.commit));
    };
    let target = address_of(cell);
    if !is_copy(cell) || target < floor || target >= journal.below {
        return Err(breach(BROKEN_JOURNAL, at, cell));
    }
    Ok(Put {
        at: target,
        value: cell,
        blame: Blame::Journal(at),
    })
}

/// That each journal cell may ask for what it asks.
pub fn check_journal<D: Device>(device: &mut D, journal: &Journal) -> Result<(), Fault>
    requires place { journal.now.place + journal.now.count ≤ (D.state device.old).cells }
    requires below { journal.now.below < 2 ^ 32 }
    ensures called { Called (D.state device.old) (D.state device.new) }
    ensures quiet { IsStill (D.state device.old).foreign_writes (D.state device.new).foreign_writes →
        IsUnchanged (D.state device.old).image (D.state device.new).image }
    ensures unfailed { IsOk result → (D.state device.new).faults ≡ (D.state device.old).faults }
    ensures ends { JournalEnds journal.now (D.state device.old) (D.state device.new) result }
{
    let mut floor = journal.first;
    for k in 0..journal.count {
        let put = entry(device, journal, k, floor)?;
        floor = put.at + 1;
    }
    Ok(())
}

/// Writes each journal cell at its own address, in order, and makes them sure: the phase before the last, of an
/// ingest and of settling.
pub fn apply_journal<D: Device>(device: &mut D, journal: &Journal) -> Result<(), Fault>
    requires place { journal.now.place + journal.now.count ≤ (D.state device.old).cells }
    requires below { journal.now.below ≤ (D.state device.old).cells }
    requires entries { IsTrue (D.state device.old).tells → AreEntries journal.now.first (D.state device.old).image
        journal.now.place journal.now.below journal.now.count }
    ensures { PutsPhase (IsEntryPut (D.state device.old).image journal.now.place journal.now.count)
        (D.state device.old) (D.state device.new) result }
{
    let mut floor = journal.first;
    for k in 0..journal.count {
        let put = entry(device, journal, k, floor)?;
        put_cell(device, &put)?;
        floor = put.at + 1;
    }
    device.sync()?;
    Ok(())
}
