//! Two lists in memory, joined.
ghost use Rattle.std.specs.Prelude.{[], ⊤};

use cell_types::{Fault, MAX_SLOTS};
use std::test::Fail;
use zigzag_join::{Lists, next_common};

/// Two lists of slots in rising order, and how often they were asked. They owe nothing and vouch for everything, since
/// each answer is compared with what was written down by hand.
#[derive(Drop)]
struct TwoLists<'a> {
    first: &'a [u32],
    second: &'a [u32],
    /// The second list says that it does not have this slot.
    denied: Option<u32>,
    next_asks: u64,
    has_asks: u64,
}

impl<'a> TwoLists<'a> {
    /// These, which were not asked yet.
    fn new(first: &'a [u32], second: &'a [u32], denied: Option<u32>) -> TwoLists<'a> {
        TwoLists {
            first,
            second,
            denied,
            next_asks: 0,
            has_asks: 0,
        }
    }

    fn of(&self, which: u32) -> &[u32] {
        if which == 0 { self.first } else { self.second }
    }
}

impl<'a> Lists for TwoLists<'a> {
    ghost use Rattle.zigzag_join.specs.Lists.{ListsState};
    ghost use Rattle.worm_device.specs.Views.{seen_directly};
    ghost use Rattle.zigzag_join.specs.NoDevice.{no_device};

    ghost state = { λ lists. record {
      lists = 2;
      view = seen_directly no_device 0;
      made_of = [];
      owes = λ which slot. ⊥;
      vouches = λ which slot. ⊤;
      may_name = λ e. ⊥;
      shows = λ e. ⊥;
      lands = λ which slot. ⊤;
      live = λ slot. ⊤;
      next_asks = lists.next_asks;
      has_asks = lists.has_asks;
      next_reads = 0;
      has_reads = 0;
    } };

    ghost knows = { λ lists slot. ⊤ };

    fn count(&self) -> u32 {
        2
    }

    #[tactic(auto, unfolding(zigzag_join::specs::Lists::HasPaid))]
    fn next(&mut self, which: u32, from: u32) -> Result<Option<u32>, Fault> {
        self.next_asks = self.next_asks.saturating_add(1);
        for slot in self.of(which) {
            if *slot >= from && *slot < MAX_SLOTS {
                return Ok(Some(*slot));
            }
        }
        Ok(None)
    }

    #[tactic(auto, unfolding(zigzag_join::specs::Lists::HasPaid))]
    fn has(&mut self, which: u32, slot: u32) -> Result<bool, Fault> {
        self.has_asks = self.has_asks.saturating_add(1);
        if which == 1 && self.denied == Some(slot) {
            return Ok(false);
        }
        Ok(self.of(which).contains(&slot))
    }

    #[tactic(auto, unfolding(zigzag_join::specs::Lists::HasPaid))]
    fn confirm(&mut self, which: u32, slot: u32) -> Result<bool, Fault> {
        self.has(which, slot)
    }
}

#[test]
fn joins_from_behind_each_answer_gather_all_common_slots(rt: HostRuntime) -> Result<(), Fail> {
    let mut lists = TwoLists::new(&[1, 4, 7, 9], &[2, 4, 9], None);
    for (from, slot) in [(0, Some(4)), (4 + 1, Some(9)), (9 + 1, None)] {
        assert_eq!(rt; next_common(&mut lists, from), Ok(slot));
    }
    // For each of the three.
    assert_eq!(rt; lists.next_asks, 4 + 3 + 1);
    assert_eq!(rt; lists.has_asks, 2 + 2);
    Ok(())
}

#[test]
fn a_list_is_asked_whether_it_has_a_slot_once_both_have_come_to_it(
    rt: HostRuntime,
) -> Result<(), Fail> {
    let first = [1, 4, 7, 9].as_slice();
    let second = [2, 4, 9].as_slice();
    for (from, denied, slot, next_asks, has_asks) in [
        // 1, 2, 4 and 4 are the next ones, and both have 4.
        (0, None, Some(4), 4, 2),
        // 7, 9 and 9.
        (5, None, Some(9), 3, 2),
        // None in the first list.
        (10, None, None, 1, 0),
        (MAX_SLOTS, None, None, 0, 0),
        // 1, 2, 4 and 4, which the second list, asked first, does not have; 7, 9 and 9, which both have.
        (0, Some(4), Some(9), 7, 3),
    ] {
        let mut lists = TwoLists::new(first, second, denied);
        assert_eq!(rt; next_common(&mut lists, from), Ok(slot));
        assert_eq!(rt; lists.next_asks, next_asks);
        assert_eq!(rt; lists.has_asks, has_asks);
    }
    Ok(())
}

#[test]
fn a_list_of_one_slot_lets_both_be_asked_once_whether_they_have_it(
    rt: HostRuntime,
) -> Result<(), Fail> {
    // The second list has one slot up to the answer: that allows four asks for a next slot, and two whether a list
    // has one.
    let mut lists = TwoLists::new(&[1, 5], &[5], None);
    assert_eq!(rt; next_common(&mut lists, 0), Ok(Some(5)));
    assert_eq!(rt; lists.next_asks, 3);
    assert_eq!(rt; lists.has_asks, 2);
    Ok(())
}
