//! Evidence that a document is not kept.
ghost use Rattle.std.specs.Prelude.{◌<◌};
ghost use Rattle.cell_types.specs.declared.geometry.TheConstants.{MAX_SLOTS};
ghost use Rattle.receipt_check.specs.Naming.{NamesUnkept};

use cell_types::{Evidence, RecordCell, Refusal, encode};
use tamper_rules::MISSING_TRAIL;

/// The done cell of the first slot.
const FIRST_DONE_CELL: u32 = 6;

/// How many log cells a slot has.
const SLOT_CELLS: u32 = 4;

/// The refusal of a document that was looked up in this slot and is not kept: the slot's done cell is the evidence. The
/// look-up has read it, and it holds one record alone, so it is not read again.
pub(crate) fn name_unkept(slot: u32) -> Refusal
    requires { slot < MAX_SLOTS }
    ensures { NamesUnkept slot result }
{
    let cell = FIRST_DONE_CELL + SLOT_CELLS * slot;
    Refusal::Tampered(Evidence {
        rule: MISSING_TRAIL,
        cell,
        found: encode(RecordCell::Done { slot }, cell),
    })
}
