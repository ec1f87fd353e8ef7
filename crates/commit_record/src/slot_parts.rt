//! The parts of a slot, by its state.
ghost use Rattle.std.specs.Prelude.{◌≡◌};
ghost use Rattle.commit_record.specs.Partition.{HasRoom, parts_of};
ghost use Rattle.volume_meaning.specs.Slots.{cells_for};

use crate::partition::Parts;
use crate::slot::SlotState;

/// The bytes of a document that a content cell holds.
const CONTENT_BYTES: u32 = 15;

/// The parts of a slot that is committed or done, and `None` for every other.
pub fn parts(state: &SlotState) -> Option<Parts>
    requires { HasRoom state.now }
    ensures { result ≡ parts_of state.now }
{
    let (SlotState::Committed {
        start,
        length,
        bytes,
        journal: journal_cells,
    }
    | SlotState::Done {
        start,
        length,
        bytes,
        journal: journal_cells,
    }) = *state
    else {
        return None;
    };
    let document_cells = document_cells(bytes);
    let journal = start + length - journal_cells;
    let document = journal - document_cells;
    Some(Parts {
        blocks: start,
        block_length: document - start,
        document,
        document_cells,
        journal,
        journal_cells,
    })
}

/// How many content cells so many stored bytes take.
pub fn document_cells(bytes: u32) -> u32
    ensures { result ≡ cells_for bytes }
{
    bytes.div_ceil(CONTENT_BYTES)
}
