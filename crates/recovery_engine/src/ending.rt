//! How the last slot is ended.
ghost use Rattle.std.specs.Prelude.{◌≡◌, ◌<◌, ◌≤◌, IsOk, IsTrue};
ghost use Rattle.cell_types.specs.Image.{IsUnchanged};
ghost use Rattle.commit_record.specs.States.{StateLiesInPool};
ghost use Rattle.commit_record.specs.declared.slot.SlotState.TheVariants.{Committed};
ghost use Rattle.recovery_engine.specs.Putting.{IsThis, PutsPhase, PutsPhases};
ghost use Rattle.worm_device.specs.Calls.{Called};
ghost use Rattle.worm_device.specs.Counts.{IsStill};
ghost use Rattle.recovery_engine.specs.Ending.{HasJournal, SlotCheckEnds, done_put, end_phases, end_plan, journal_of, step_of};

use crate::journal::{Journal, apply_journal, check_journal};
use crate::put::{Blame, Put};
use crate::row::put_one;
use crate::settling::Step;
use cell_types::{Evidence, Fault, Geometry, RecordCell, encode};
use commit_record::{Reservation, SlotState, document_cells};
use tamper_rules::{BROKEN_JOURNAL, DONE_CELL, OUTCOME_CELL};
use worm_device::Device;

/// The journal of a slot that reserves these cells, and whose commit cell states so many stored bytes and journal
/// cells.
pub fn journal_of(
    geometry: &Geometry,
    slot: u32,
    cells: Reservation,
    bytes: u32,
    journal: u32,
) -> Journal
    requires slot { slot < geometry.now.slots }
    requires within { StateLiesInPool geometry.now (Committed cells.start cells.length bytes journal) }
    ensures { result ≡ journal_of geometry.now slot cells.start cells.length bytes journal }
{
    // A layout has a list, as each of its calls says.
    let _cells = geometry.cells();
    let outcome = geometry.outcome_at(slot);
    let place = cells.end() - journal;
    Journal {
        place,
        count: journal,
        first: geometry.lists_at(),
        below: place - document_cells(bytes),
        commit: Evidence {
            rule: BROKEN_JOURNAL,
            cell: outcome,
            found: encode(RecordCell::Commit { bytes, journal }, outcome),
        },
    }
}

/// That the journal of a slot in this state, where it has one, asks for what it may ask for.
pub fn check_slot<D: Device>(
    device: &mut D,
    geometry: &Geometry,
    slot: u32,
    state: &SlotState,
) -> Result<(), Fault>
    requires slot { slot < geometry.now.slots }
    requires size { geometry.now.cells ≤ (D.state device.old).cells }
    requires within { StateLiesInPool geometry.now state.now }
    ensures called { Called (D.state device.old) (D.state device.new) }
    ensures quiet { IsStill (D.state device.old).foreign_writes (D.state device.new).foreign_writes →
        IsUnchanged (D.state device.old).image (D.state device.new).image }
    ensures reads { end_phases state.now ≡ 0 → (D.state device.new).reads ≡ (D.state device.old).reads }
    ensures unfailed { IsOk result → (D.state device.new).faults ≡ (D.state device.old).faults }
    ensures ends { SlotCheckEnds geometry.now slot state.now (D.state device.old) (D.state device.new) result }
{
    match *state {
        SlotState::Committed {
            start,
            length,
            bytes,
            journal,
        } => {
            let cells = Reservation { start, length };
            check_journal(device, &journal_of(geometry, slot, cells, bytes, journal))
        }
        _ => Ok(()),
    }
}

/// Ends a slot: writes its abandon cell where it is reserved, and its journal and then its done cell where it is
/// committed.
pub fn end_slot<D: Device>(
    device: &mut D,
    geometry: &Geometry,
    slot: u32,
    state: &SlotState,
) -> Result<(), Fault>
    requires slot { slot < geometry.now.slots }
    requires size { geometry.now.cells ≤ (D.state device.old).cells }
    requires within { StateLiesInPool geometry.now state.now }
    requires journal { IsTrue (D.state device.old).tells →
        HasJournal geometry.now state.now (D.state device.old).image }
    ensures phases { PutsPhases (end_plan (D.state device.old).image slot state.now) (end_phases state.now)
        (D.state device.old) (D.state device.new) result }
    ensures reads { end_phases state.now ≡ 0 → (D.state device.new).reads ≡ (D.state device.old).reads }
{
    match *state {
        SlotState::Reserved { .. } => {
            let at = geometry.outcome_at(slot);
            let abandon = Put {
                at,
                value: encode(RecordCell::Abandon, at),
                blame: Blame::Rule(OUTCOME_CELL),
            };
            put_one(device, &abandon)
        }
        SlotState::Committed {
            start,
            length,
            bytes,
            journal,
        } => {
            let cells = Reservation { start, length };
            let journal = journal_of(geometry, slot, cells, bytes, journal);
            apply_journal(device, &journal)?;
            finish(device, geometry, slot)
        }
        _ => Ok(()),
    }
}

/// Writes the done cell, and makes it sure: the last phase, of an ingest and of settling.
pub fn finish<D: Device>(device: &mut D, geometry: &Geometry, slot: u32) -> Result<(), Fault>
    requires slot { slot < geometry.now.slots }
    requires size { geometry.now.cells ≤ (D.state device.old).cells }
    ensures { PutsPhase (IsThis (done_put slot)) (D.state device.old) (D.state device.new) result }
{
    // A layout has no more slots than a done cell can name, as each of its calls says.
    let _slots = geometry.slots();
    let at = geometry.done_at(slot);
    let done = Put {
        at,
        value: encode(RecordCell::Done { slot }, at),
        blame: Blame::Rule(DONE_CELL),
    };
    put_one(device, &done)
}

/// What has been done, when a slot in this state was ended.
pub fn step_of(slot: u32, state: &SlotState) -> Step
    ensures { result ≡ step_of slot state.now }
{
    match *state {
        SlotState::Reserved { .. } => Step::Abandoned(slot),
        SlotState::Committed { .. } => Step::Completed(slot),
        _ => Step::Nothing,
    }
}
