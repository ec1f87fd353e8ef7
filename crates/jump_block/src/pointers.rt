//! One jump pointer of a block.
ghost use Rattle.std.specs.Prelude.{◌≡◌, ◌<◌, ◌≤◌, ◌+◌, ◌^◌};
ghost use Rattle.volume_meaning.specs.declared.blocks.TheConstants.{BLOCK_CELLS};
ghost use Rattle.volume_meaning.specs.Blocks.{pointer_at};
ghost use Rattle.jump_block.specs.Pointers.{ReadsPointer};
ghost use Rattle.jump_block.specs.Pointing.{IsPointerEvidence};

use crate::Span;
use cell_types::{Fault, RecordCell, breach, encode};
use tamper_rules::LOST_POINTER;
use worm_device::{View, record_at};

/// The number of the cell in which the pointer of a level and a digit stands.
pub fn pointer_cell(block: u32, level: u8, digit: u8) -> u32
    requires level { level < 8 }
    requires some { 1 ≤ digit }
    requires digit { digit ≤ 15 }
    requires inside { block + BLOCK_CELLS ≤ 2 ^ 32 }
    ensures { result ≡ pointer_at block level digit }
{
    block + (127 + 15 * u32::from(level) + u32::from(digit))
}

/// Where the pointer of a level and a digit leads, `None` where it is blank. A written cell that is no jump cell is
/// evidence.
pub fn pointer<V: View>(
    view: &mut V,
    block: u32,
    level: u8,
    digit: u8,
) -> Result<Option<u32>, Fault>
    requires level { level < 8 }
    requires some { 1 ≤ digit }
    requires digit { digit ≤ 15 }
    requires inside { block + BLOCK_CELLS ≤ (V.seen view.old).cells }
    ensures { ReadsPointer (pointer_at block level digit) (V.seen view.old) (V.seen view.new) result }
{
    let at = pointer_cell(block, level, digit);
    let Some(found) = record_at(view, at, LOST_POINTER)? else {
        return Ok(None);
    };
    let RecordCell::Jump { target } = found.held else {
        return Err(breach(LOST_POINTER, at, found.cell));
    };
    Ok(Some(target))
}

/// The evidence that a pointer leads nowhere.
pub fn leads_nowhere(block: u32, span: &Span, target: u32) -> Fault
    requires level { span.now.level < 8 }
    requires some { 1 ≤ span.now.digit }
    requires digit { span.now.digit ≤ 15 }
    requires inside { block + BLOCK_CELLS ≤ 2 ^ 32 }
    ensures { IsPointerEvidence block span.now.level span.now.digit target result }
{
    let at = pointer_cell(block, span.level, span.digit);
    breach(LOST_POINTER, at, encode(RecordCell::Jump { target }, at))
}
