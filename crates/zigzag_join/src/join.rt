//! The zigzag join.
ghost use Rattle.std.specs.Prelude.{◌≡◌, ◌≤◌, ◌<◌, ◌+◌, ◌^◌, ◌⊎◌, IsTrue};
ghost use Rattle.cell_types.specs.declared.geometry.TheConstants.{MAX_SLOTS};
ghost use Rattle.zigzag_join.specs.Counts.{JoinCosts};
ghost use Rattle.zigzag_join.specs.Joins.{AllHaveEnds, AllVouch, HasAgreed, IsTurnAfter, JoinEnds};
ghost use Rattle.zigzag_join.specs.Lists.{Keeps, KnowsHad, KnowsNext};

use crate::{Landing, Lists};
use cell_types::{Fault, MAX_SLOTS};

/// The next slot at or past one that all lists have, `None` where there is none. It passes no slot that no list may
/// pass. Any one list bounds how often they all are asked, also where a fault comes. A fault is that of the list that
/// was asked last. The slot is live, and the lists know of it what they know of a slot that one of them answers.
pub fn next_common<Q: Lists>(lists: &mut Q, from: u32) -> Result<Option<u32>, Fault>
    requires some { 1 ≤ (Q.state lists.old).lists }
    requires from { from ≤ MAX_SLOTS }
    ensures kept { Keeps (Q.state lists.old) (Q.state lists.new) }
    ensures ends { JoinEnds from (Q.state lists.old) (Q.state lists.new) result }
    ensures costs { JoinCosts from (Q.state lists.old) (Q.state lists.new) result }
    ensures knows { KnowsNext (Q.knows lists.new) result }
{
    let count = lists.count();
    let mut which = 0;
    // So many lists before this one, in turn, have come to the slot; and whether each of them vouches for it.
    let mut agreed = 0;
    let mut vouched = true;
    let mut slot = from;
    while slot < MAX_SLOTS {
        let Some(next) = lists.land(which, slot)? else {
            return Ok(None);
        };
        agreed = agreed_at(next.slot, slot, agreed);
        vouched = vouched_at(next, slot, vouched);
        slot = next.slot;
        which = turn_after(which, count);
        if agreed == count {
            if all_have(lists, count, slot, vouched)? {
                return Ok(Some(slot));
            }
            // Some list need not have the slot, so not all of them do.
            slot += 1;
            agreed = 0;
            vouched = true;
        }
    }
    Ok(None)
}

/// How many lists, in turn, have come to the next slot, this one with them.
fn agreed_at(next: u32, slot: u32, agreed: u32) -> u32
    requires order { slot ≤ next }
    requires fits { agreed + 1 < 2 ^ 32 }
    ensures { HasAgreed next slot agreed result }
{
    if next > slot { 1 } else { agreed + 1 }
}

/// Whether each list that has come to the next slot, in turn, vouches for it, this one with them.
fn vouched_at(next: Landing, slot: u32, vouched: bool) -> bool
    ensures own { IsTrue result → IsTrue next.vouched }
    ensures others { IsTrue result → (slot < next.slot) ⊎ IsTrue vouched }
{
    next.vouched && (vouched || next.slot > slot)
}

/// The list that is asked after this one, of so many.
fn turn_after(which: u32, count: u32) -> u32
    requires { which < count }
    ensures { IsTurnAfter count which result }
{
    if which + 1 == count { 0 } else { which + 1 }
}

/// Whether all lists have the slot that they have come to, which is live then. They are not asked where each of them
/// vouches for it. Only the first has to confirm that it is live, once all others have it.
fn all_have<Q: Lists>(lists: &mut Q, count: u32, slot: u32, vouched: bool) -> Result<bool, Fault>
    requires some { 1 ≤ count }
    requires count { count ≡ (Q.state lists.old).lists }
    requires slot { slot < MAX_SLOTS }
    requires vouched { IsTrue vouched → AllVouch (Q.state lists.old) slot }
    requires live { IsTrue vouched → (Q.state lists.old).live slot }
    requires known { IsTrue vouched → Q.knows lists.old slot }
    ensures kept { Keeps (Q.state lists.old) (Q.state lists.new) }
    ensures next_asks { (Q.state lists.new).next_asks ≤ (Q.state lists.old).next_asks }
    ensures has_asks { (Q.state lists.new).has_asks ≤ (Q.state lists.old).has_asks + count }
    ensures knows { KnowsHad (Q.knows lists.new) slot result }
    ensures ends { AllHaveEnds slot (Q.state lists.old) (Q.state lists.new) result }
{
    if vouched {
        return Ok(true);
    }
    for which in 1..count {
        if !lists.has(which, slot)? {
            return Ok(false);
        }
    }
    lists.confirm(0, slot)
}
