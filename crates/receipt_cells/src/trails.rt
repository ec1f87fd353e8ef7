//! The cells of a posting's trail.
ghost use Rattle.std.specs.Prelude.{◌<◌, ◌≤◌, ◌+◌, ◌^◌};
ghost use Rattle.volume_meaning.specs.declared.blocks.TheConstants.{BLOCK_CELLS, ENTRY_PLACES};
ghost use Rattle.receipt_cells.specs.Trails.{HopCells, IsGivenUp, ListsBlock, ListsTrail};
ghost use Rattle.receipt_cells.specs.Written.{IsInRow, ListsCells};

use crate::cells::{list_cell, list_cells};
use cell_types::Fault;
use jump_block::{Entry, Front, KnownFront, Span, first_from_known, pointer, pointer_cell, span};
use kept_documents::AskFault;
use receipt_text::ListedCells;
use volume_meaning::{ENTRY_PLACES, PostingFields};
use worm_device::View;

/// Lists the cells of the posting's trail from a list's first block, through blocks from the pool's start on.
pub(crate) fn list_trail<V: View>(
    view: &mut V,
    pool: u32,
    head: u32,
    wanted: PostingFields,
    listed: &mut ListedCells,
) -> Result<(), AskFault>
    requires head { head + BLOCK_CELLS ≤ (V.seen view.old).cells }
    ensures { ListsTrail pool head wanted (V.seen view.old) (V.seen view.new) listed.old listed.new
        result }
{
    let every_key = Reached {
        block: head,
        low: 0,
        bound: 1 << 32,
        level: 8,
    };
    list_block(view, pool, wanted, every_key, listed)
}

/// A block that a pointer led to, whose span has the keys from low up to the bound, at most 16 to the power of level.
#[derive(Clone, Copy, Debug, PartialEq, Eq)]
struct Reached {
    block: u32,
    low: u64,
    bound: u64,
    level: u8,
}

/// The same from a block that was reached. Where the way ends before the posting there is no such trail, and what was
/// listed counts for nothing.
fn list_block<V: View>(
    view: &mut V,
    pool: u32,
    wanted: PostingFields,
    reached: Reached,
    listed: &mut ListedCells,
) -> Result<(), AskFault>
    requires inside { reached.block + BLOCK_CELLS ≤ (V.seen view.old).cells }
    requires narrow { reached.bound ≤ reached.low + 16 ^ reached.level }
    requires from { reached.low ≤ wanted.key }
    requires below { wanted.key < reached.bound }
    requires level { reached.level ≤ 8 }
    ensures { ListsBlock pool reached.block wanted reached.low reached.bound (V.seen view.old)
        (V.seen view.new) listed.old listed.new result }
{
    let block = reached.block;
    let low = reached.low;
    let mut known = KnownFront {
        block,
        count: 0,
        greatest: 0,
    };
    let front = match first_from_known(view, &mut known, wanted.key) {
        Ok(front) => front,
        Err(fault) => return given_up(fault),
    };
    let l = match front {
        Front::At(next) => return list_to(view, &next, listed),
        Front::Open(_, _) => return Ok(()),
        Front::Full(l) => l,
    };
    if u64::from(l) < low {
        return Ok(());
    }
    let first = span(l, wanted.key);
    let to = match pointer(view, block, first.level, first.digit) {
        Ok(to) => to,
        Err(fault) => return given_up(fault),
    };
    let Some(target) = to else {
        return Ok(());
    };
    if target < pool {
        return Ok(());
    }
    if u64::from(target) + 256 > u64::from(view.cells()) {
        return Ok(());
    }
    let next = Reached {
        block: target,
        low: first.low,
        bound: first.high,
        level: first.level,
    };
    if let Err(why) = list_block(view, pool, wanted, next, listed) {
        return Err(why);
    }
    list_hop(view, block, &first, listed)
}

/// Lists the cells of an entry's block from the first place up to the entry.
fn list_to<V: View>(view: &mut V, entry: &Entry, listed: &mut ListedCells) -> Result<(), AskFault>
    requires place { entry.now.place < ENTRY_PLACES }
    requires inside { entry.now.block + BLOCK_CELLS ≤ (V.seen view.old).cells }
    ensures { ListsCells (IsInRow entry.now.block (entry.now.block + entry.now.place + 1)) (V.seen view.old)
        (V.seen view.new) listed.old listed.new result }
{
    let next = entry.block + u32::from(entry.place) + 1;
    list_cells(view, entry.block, next, listed)
}

/// Lists the front's cells of a block that leads on, and the jump cell of the span.
fn list_hop<V: View>(
    view: &mut V,
    block: u32,
    first: &Span,
    listed: &mut ListedCells,
) -> Result<(), AskFault>
    requires inside { block + BLOCK_CELLS ≤ (V.seen view.old).cells }
    requires level { first.now.level < 8 }
    requires some { 1 ≤ first.now.digit }
    requires digit { first.now.digit ≤ 15 }
    ensures { ListsCells (HopCells block first.now.level first.now.digit) (V.seen view.old) (V.seen view.new) listed.old
        listed.new result }
{
    if let Err(why) = list_cells(view, block, block + u32::from(ENTRY_PLACES), listed) {
        return Err(why);
    }
    list_cell(view, pointer_cell(block, first.level, first.digit), listed)
}

/// At a cell that is out of order the way ends. A read that failed says nothing.
fn given_up(fault: Fault) -> Result<(), AskFault>
    ensures { IsGivenUp fault result }
{
    match fault {
        Fault::Tampered(_) => Ok(()),
        Fault::Failed => Err(AskFault::ReadFault),
    }
}
