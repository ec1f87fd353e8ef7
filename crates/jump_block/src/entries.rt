//! One entry of a block.
ghost use Rattle.std.specs.Prelude.{◌<◌, ◌≤◌, ◌+◌};
ghost use Rattle.volume_meaning.specs.declared.blocks.TheConstants.{BLOCK_CELLS, ENTRY_PLACES};
ghost use Rattle.jump_block.specs.Entries.{ReadsEntry};

use crate::Entry;
use cell_types::{Fault, RecordCell, breach};
use tamper_rules::BLOCK_OUT_OF_ORDER;
use worm_device::{View, record_at};

/// The entry at a place of a block, `None` where it is blank. A written cell that is no posting is evidence.
pub fn entry<V: View>(view: &mut V, block: u32, place: u8) -> Result<Option<Entry>, Fault>
    requires place { place < ENTRY_PLACES }
    requires inside { block + BLOCK_CELLS ≤ (V.seen view.old).cells }
    ensures { ReadsEntry block place (V.seen view.old) (V.seen view.new) result }
{
    let at = block + u32::from(place);
    let Some(found) = record_at(view, at, BLOCK_OUT_OF_ORDER)? else {
        return Ok(None);
    };
    let RecordCell::Posting { key, last, tag } = found.held else {
        return Err(breach(BLOCK_OUT_OF_ORDER, at, found.cell));
    };
    Ok(Some(Entry {
        block,
        place,
        key,
        last,
        tag,
    }))
}
