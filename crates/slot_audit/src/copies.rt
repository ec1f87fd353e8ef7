//! Journal cells: copies of index cells.
ghost use Rattle.std.specs.Prelude.{◌↔◌, IsTrue};
ghost use Rattle.tamper_rules.specs.Journals.{IsIndexRecord};
ghost use Rattle.recovery_engine.specs.Entries.{IsCopy};
ghost use Rattle.log_audit.specs.Kept.{image_of_kept};
ghost use Rattle.slot_audit.specs.Copying.{TargetEnds};

use cell_types::{Cell, RecordCell, address_of, decode};
use log_audit::KeptCells;

/// The cell of which a copy stands in this one, if one of an index cell does.
pub fn target_at(kept: &KeptCells, at: u32) -> Option<u32>
    ensures { TargetEnds (image_of_kept kept.now) at result }
{
    let Some(cell) = kept.at(at) else {
        return None;
    };
    if !is_copy(cell) {
        return None;
    }
    Some(address_of(cell))
}

/// Whether the cell is one of the index, well-formed at its own address.
fn is_copy(cell: Cell) -> bool
    ensures { IsTrue result ↔ IsCopy cell }
{
    match decode(cell, address_of(cell)) {
        Some(held) => is_index_record(&held),
        None => false,
    }
}

/// Whether a record is one of the index.
fn is_index_record(held: &RecordCell) -> bool
    ensures { IsTrue result ↔ IsIndexRecord held.now }
{
    matches!(
        *held,
        RecordCell::Posting { .. }
            | RecordCell::Jump { .. }
            | RecordCell::Bucket { .. }
            | RecordCell::Child { .. }
    )
}
