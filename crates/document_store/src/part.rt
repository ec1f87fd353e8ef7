//! Where the document of a slot lies, and what names it where it is broken.
ghost use Rattle.std.specs.Prelude.{◌≡◌, ◌<◌, ◌≤◌, ◌+◌};
ghost use Rattle.volume_meaning.specs.Slots.{cells_for};
ghost use Rattle.worm_device.specs.Views.{Viewed};
ghost use Rattle.commit_record.specs.Partition.{HasRoom};
ghost use Rattle.commit_record.specs.States.{stamp_cells};
ghost use Rattle.document_store.specs.Looks.{HasPart, IsStated, PartEnds, ReadDocumentEnds, commit_breach, part_of};

use crate::head::{Head, read_document};
use append_file::ContentFault;
use cell_types::{Fault, Geometry, RecordCell, Volume, breach, encode};
use commit_record::{SlotState, document_cells, slot_state};
use tamper_rules::BROKEN_DOCUMENT;
use worm_device::View;

/// Where the document of a slot lies.
#[derive(Clone, Copy)]
pub struct Part {
    pub slot: u32,
    /// The first of its cells.
    pub start: u32,
    /// How many stored bytes it has.
    pub bytes: u32,
    /// How many cells the slot's journal has.
    pub journal: u32,
}

/// Where the document of a slot lies, if the slot is done. Makes at most three reads, and one more where documents
/// are stamped.
pub fn slot_part<V: View>(view: &mut V, volume: &Volume, slot: u32) -> Result<Option<Part>, Fault>
    requires slot { slot < volume.now.geometry.slots }
    requires size { volume.now.geometry.cells ≤ (V.seen view.old).cells }
    ensures viewed { Viewed (V.seen view.old) (V.seen view.new) }
    ensures reads { (V.seen view.new).base.reads ≤ (V.seen view.old).base.reads
        + (3 + stamp_cells volume.now.geometry) }
    ensures ends { PartEnds volume.now.geometry slot (V.seen view.old) (V.seen view.new) result }
{
    let state = slot_state(view, volume, slot)?;
    Ok(part_of_state(slot, &state))
}

/// The same by a state that was read of the slot. Reads nothing.
pub fn part_of_state(slot: u32, state: &SlotState) -> Option<Part>
    requires { HasRoom state.now }
    ensures { result ≡ part_of slot state.now }
{
    let SlotState::Done {
        start,
        length,
        bytes,
        journal,
    } = *state
    else {
        return None;
    };
    Some(Part {
        slot,
        start: start + length - journal - document_cells(bytes),
        bytes,
        journal,
    })
}

/// Names the commit cell of a slot whose cells spell no document, as it was read: a part's numbers give it back.
pub fn name_commit(geometry: &Geometry, part: &Part) -> Fault
    requires slot { part.now.slot < geometry.now.slots }
    requires stated { IsStated part.now }
    ensures { result ≡ commit_breach part.now }
{
    let cell = geometry.outcome_at(part.slot);
    let stated = RecordCell::Commit {
        bytes: part.bytes,
        journal: part.journal,
    };
    breach(BROKEN_DOCUMENT, cell, encode(stated, cell))
}

/// Reads the document of a part, each cell once, and answers what stands before its body. Where it is broken its commit
/// cell is named, by rule 4.
pub fn read_part<V: View>(view: &mut V, geometry: &Geometry, part: &Part) -> Result<Head, Fault>
    requires size { geometry.now.cells ≤ (V.seen view.old).cells }
    requires part { HasPart geometry.now (V.seen view.old) part.now }
    ensures viewed { Viewed (V.seen view.old) (V.seen view.new) }
    ensures reads { (V.seen view.new).base.reads ≤ (V.seen view.old).base.reads + cells_for part.now.bytes }
    ensures ends { ReadDocumentEnds geometry.now part.now (V.seen view.old) (V.seen view.new) result }
{
    match read_document(view, part.start, part.bytes) {
        Ok(head) => Ok(head),
        Err(ContentFault::ReadFault) => Err(Fault::Failed),
        Err(ContentFault::Broken) => Err(name_commit(geometry, part)),
    }
}
