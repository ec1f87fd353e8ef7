//! Inserting a posting.
ghost use Rattle.std.specs.Prelude.{◌≡◌, ◌<◌, ◌≤◌, ◌+◌, ◌%◌, ◌⊎◌, ℕ, None, IfNone, IfOk, IsTrue};
ghost use Rattle.cell_pool.specs.Grants.{TakesFront, free_cells};
ghost use Rattle.volume_meaning.specs.declared.blocks.TheConstants.{BLOCK_CELLS};
ghost use Rattle.worm_device.specs.Overlays.{of_overlay};
ghost use Rattle.jump_insertion.specs.Inserting.{InsertsPosting};
ghost use Rattle.jump_insertion.specs.Readiness.{IsReadyList};
ghost use Rattle.jump_insertion.specs.Steps.{GrowsFrom, PlacesFrom, PlansCells};
ghost use Rattle.jump_insertion.specs.UnderWay.{IsHome, IsVisit};

use crate::NewEntry;
use crate::entries::{
    FullBlock, Home, Insertion, ListBlocks, ListWalk, Spot, TailSearch, TailStep, Visit,
    WrittenPointer,
};
use crate::hops::{check_target, late_posting, tail};
use crate::puts::{put_both, put_posting};
use cell_pool::{GrowthFault, Pool};
use jump_block::{Entry, Front, Span, first_at_least, leads_nowhere, pointer, span};
use volume_meaning::BLOCK_CELLS;
use worm_device::{Overlay, Owner, View};

/// Inserts a posting into the list whose first block begins at `head` and whose other blocks lie from `floor` on, the
/// pool's start, and answers the entry that is planned.
///
/// It plans the posting and at most one pointer to its block, and takes at most one block from the pool. A written cell
/// that is out of place on the way is evidence. After a refusal what was planned is given up.
pub fn insert<V: View>(
    overlay: &mut Overlay<'_, V>,
    pool: &mut Pool,
    head: u32,
    floor: u32,
    new_entry: NewEntry,
) -> Result<Entry, GrowthFault>
    requires well_formed { new_entry.key % 256 ≤ new_entry.last }
    requires head { head + BLOCK_CELLS ≤ floor }
    requires floor { floor ≤ (of_overlay V.seen overlay.old).fresh }
    requires fresh { (of_overlay V.seen overlay.old).fresh ≤ pool.old.next }
    requires room { BLOCK_CELLS ≤ free_cells pool.old }
    requires free { (cell : ℕ) → pool.old.next ≤ cell → (of_overlay V.seen overlay.old).planned cell ≡ None }
    requires ready { IsTrue (of_overlay V.seen overlay.old).base.tells →
        IsReadyList (of_overlay V.seen overlay.old) head floor pool.old.next new_entry.key }
    ensures pool { (pool.new ≡ pool.old) ⊎ TakesFront pool.old pool.new BLOCK_CELLS pool.old.next }
    ensures inserts { InsertsPosting head floor pool.old.next pool.new.next new_entry
        (of_overlay V.seen overlay.old) (of_overlay V.seen overlay.new) result }
{
    let all = Span {
        level: 8,
        digit: 0,
        low: 0,
        high: 1 << 32,
    };
    let tag = new_entry.tag;
    let insertion = Insertion {
        list: ListBlocks { head, floor },
        entry: new_entry,
    };
    let first = Visit {
        block: head,
        within: all,
    };
    let placed = insert_from(overlay, pool, insertion, first)?;
    // No key is below 0.
    let Some(spot) = placed else { unreachable!() };
    Ok(Entry {
        block: spot.block,
        place: spot.place,
        key: new_entry.key,
        last: new_entry.last,
        tag,
    })
}

/// Inserts a posting in or behind a block, to which a pointer for these keys led. `None` where the block is full and
/// has none of them.
fn insert_from<V: View>(
    overlay: &mut Overlay<'_, V>,
    pool: &mut Pool,
    insertion: Insertion,
    visit: Visit,
) -> Result<Option<Spot>, GrowthFault>
    requires { IsVisit (of_overlay V.seen overlay.old) pool.old insertion visit }
    ensures pool { (pool.new ≡ pool.old) ⊎ TakesFront pool.old pool.new BLOCK_CELLS pool.old.next }
    ensures none { IfOk result (λ spot. IfNone spot (0 < visit.within.low)) }
    ensures places { PlacesFrom insertion visit pool.new.next
        (of_overlay V.seen overlay.old) (of_overlay V.seen overlay.new) result }
    ensures grows { GrowsFrom insertion visit pool.old.next pool.new.next
        (of_overlay V.seen overlay.old) (of_overlay V.seen overlay.new) result }
    ensures planned { PlansCells insertion pool.old.next pool.new.next
        (of_overlay V.seen overlay.old) (of_overlay V.seen overlay.new) result }
{
    // That the pool lies within an overlay's cells is known once its end is read.
    let _end = pool.end;
    let entry = insertion.entry;
    let block = visit.block;
    let within = visit.within;
    let first = first_at_least(overlay, block, entry.key)?;
    let l = match first {
        Front::At(late) => return Err(GrowthFault::Fault(late_posting(&late))),
        Front::Open(place, _) => {
            let at = block + u32::from(place);
            let owner = Owner {
                head: insertion.list.head,
                base: block,
            };
            put_posting(overlay, at, owner, entry)?;
            return Ok(Some(Spot { block, place }));
        }
        Front::Full(l) => l,
    };
    if u64::from(l) < within.low {
        return Ok(None);
    }
    let to = span(l, entry.key);
    let led = pointer(overlay, block, to.level, to.digit)?;
    let Some(target) = led else {
        let home = Home {
            visit,
            greatest_key: l,
            to,
        };
        return insert_behind(overlay, pool, insertion, home);
    };
    let walk = ListWalk {
        list: insertion.list,
        next: pool.next,
        key: entry.key,
    };
    let led_by = WrittenPointer {
        block,
        span: to,
        target,
    };
    check_target(overlay, walk, led_by)?;
    let next = Visit {
        block: target,
        within: to,
    };
    let placed = insert_from(overlay, pool, insertion, next)?;
    let Some(spot) = placed else {
        return Err(GrowthFault::Fault(leads_nowhere(block, &to, target)));
    };
    Ok(Some(spot))
}

/// Inserts a posting behind a full block, whose pointer for it is blank: into the list's tail, or where that is full
/// into a new block.
fn insert_behind<V: View>(
    overlay: &mut Overlay<'_, V>,
    pool: &mut Pool,
    insertion: Insertion,
    home: Home,
) -> Result<Option<Spot>, GrowthFault>
    requires { IsHome (of_overlay V.seen overlay.old) pool.old insertion home }
    ensures pool { (pool.new ≡ pool.old) ⊎ TakesFront pool.old pool.new BLOCK_CELLS pool.old.next }
    ensures none { IfOk result (λ spot. IfNone spot (0 < home.visit.within.low)) }
    ensures places { PlacesFrom insertion home.visit pool.new.next
        (of_overlay V.seen overlay.old) (of_overlay V.seen overlay.new) result }
    ensures grows { GrowsFrom insertion home.visit pool.old.next pool.new.next
        (of_overlay V.seen overlay.old) (of_overlay V.seen overlay.new) result }
    ensures planned { PlansCells insertion pool.old.next pool.new.next
        (of_overlay V.seen overlay.old) (of_overlay V.seen overlay.new) result }
{
    // That the pool lies within an overlay's cells is known once its end is read.
    let _end = pool.end;
    let search = TailSearch {
        walk: ListWalk {
            list: insertion.list,
            next: pool.next,
            key: insertion.entry.key,
        },
        home: home.visit.block,
    };
    let step = TailStep {
        full: FullBlock {
            block: home.visit.block,
            greatest_key: home.greatest_key,
        },
        bound: home.to.low,
        level: home.to.level + 1,
    };
    let found = tail(overlay, search, step)?;
    let Some(spot) = found else {
        // There is room for a block.
        let Some(target) = pool.grant(BLOCK_CELLS) else {
            unreachable!()
        };
        let spot = Spot {
            block: target,
            place: 0,
        };
        return put_both(overlay, insertion, home, spot);
    };
    put_both(overlay, insertion, home, spot)
}
