//! The lists of terms, as the join asks them.
ghost use Rattle.std.specs.Prelude.{◌≡◌, ◌++◌, ◌∷◌, [], IfOk};

use crate::own_search::{next_of_own, own_confirm, own_has};
use crate::term_lists::SEARCHES;
use crate::{SoughtTerm, TermLists};
use cell_types::{Fault, MAX_SLOTS, NoMemory, Refusal, memory};
use document_store::Part;
use std::alloc::Global;
use worm_device::View;
use zigzag_join::{Landing, Lists, next_common};

impl<'a, V: View> TermLists<'a, V> {
    ghost use Rattle.std.specs.Prelude.{◌≡◌, ◌≤◌, length};
    ghost use Rattle.cell_types.specs.declared.geometry.TheConstants.{MAX_SLOTS};
    ghost use Rattle.worm_device.specs.Views.{Viewed};
    ghost use Rattle.zigzag_join.specs.Counts.{GatherCosts};
    ghost use Rattle.zigzag_join.specs.Lists.{AsksNext, Keeps, KnowsLanding, LandEnds};
    ghost use Rattle.posting_list.specs.Joins.{
      GatherPartsEnds,
      TermsCost,
      TermsGather,
      TermsGatherCost,
      TermsGatherReads,
      TermsJoin,
    };
    ghost use Rattle.posting_list.specs.Over.{lists_of};
    ghost use Rattle.posting_list.specs.States.{KnowsPart, LooksAlways};
    ghost use Rattle.posting_list.specs.Terms.{TermEnds};

    /// The next slot at or past one that all of the terms have, `None` where there is none. The view is read alone.
    ///
    /// # Errors
    ///
    /// `Tampered` where a block is out of order (rules 8 and 10), the slot of a term's posting is not done or lies at or
    /// past the horizon (rule 9), or its cells are no state (rules 1 to 3); `Failed`.
    pub fn next_common(&mut self, from: u32) -> Result<Option<u32>, Fault>
        requires some { 1 ≤ length self.old.sought.now.terms.items }
        requires from { from ≤ MAX_SLOTS }
        ensures same_loan { self.new.view.ghost_name ≡ self.old.view.ghost_name }
        ensures same_reach { self.new.reach ≡ self.old.reach }
        ensures same_terms { self.new.sought.now.terms.items ≡ self.old.sought.now.terms.items }
        ensures viewed { Viewed (V.seen self.old.view.now) (V.seen self.new.view.now) }
        ensures joins { TermsJoin self.old.reach self.old.sought.now.terms.items from (V.seen self.old.view.now)
            (V.seen self.new.view.now) result }
        ensures costs { TermsCost self.old.reach self.old.sought.now.terms.items from (V.seen self.old.view.now)
            (V.seen self.new.view.now) self.old.next_asks self.old.has_asks self.new.next_asks self.new.has_asks
            result }
    {
        next_common(self, from)
    }

    /// All slots that all of the terms have, each by where its document lies, by rising slot. The view is read alone.
    ///
    /// # Errors
    ///
    /// Those of `next_common`, a fault of a read being `DeviceFault`; and `NoMemory`.
    pub fn all_common(&mut self, alloc: Global) -> Result<Vec<Part>, Refusal>
        requires some { 1 ≤ length self.old.sought.now.terms.items }
        ensures same_loan { self.new.view.ghost_name ≡ self.old.view.ghost_name }
        ensures viewed { Viewed (V.seen self.old.view.now) (V.seen self.new.view.now) }
        ensures gathers { TermsGather self.old.reach self.old.sought.now.terms.items (V.seen self.old.view.now)
            (V.seen self.new.view.now) result }
        ensures costs { TermsGatherCost self.old.reach self.old.sought.now.terms.items (V.seen self.old.view.now)
            (V.seen self.new.view.now) self.old.next_asks self.old.has_asks self.new.next_asks self.new.has_asks }
        ensures reads { self.old.next_asks ≡ 0 → self.old.has_asks ≡ 0 → TermsGatherReads self.old.reach
            self.old.sought.now.terms.items (V.seen self.old.view.now) (V.seen self.new.view.now) }
    {
        self.gather(alloc)
    }

    /// The same, as the join speaks of its lists.
    fn gather(&mut self, alloc: Global) -> Result<Vec<Part>, Refusal>
        requires some { 1 ≤ length self.old.sought.now.terms.items }
        ensures kept { Keeps (lists_of self.old) (lists_of self.new) }
        ensures ends { GatherPartsEnds self.old.reach.volume.geometry (lists_of self.old) (lists_of self.new) result }
        ensures costs { GatherCosts (lists_of self.old) (lists_of self.new) }
    {
        let mut parts = Vec::new(alloc);
        let mut from = 0;
        while from < MAX_SLOTS {
            let Some(slot) = next_common(self, from)? else {
                return Ok(parts);
            };
            let Some(part) = self.last else {
                unreachable!();
            };
            keep(&mut parts, part)?;
            from = slot + 1;
        }
        Ok(parts)
    }

    /// A slot of a list at or past one. It is looked at where the list vouches for it, or `always` is set.
    fn come_to(&mut self, which: u32, from: u32, always: bool) -> Result<Option<Landing>, Fault>
        requires from { from ≤ MAX_SLOTS }
        ensures kept { Keeps (lists_of self.old) (lists_of self.new) }
        ensures asks { AsksNext (lists_of self.old) (lists_of self.new) }
        ensures knows { KnowsLanding (KnowsPart self.new.reach (V.seen self.new.view.now) self.new.last) result }
        ensures ends { LandEnds which from (lists_of self.old) (lists_of self.new) result }
        ensures always { LooksAlways always self.new.reach (V.seen self.new.view.now) self.new.last result }
    {
        self.next_asks = self.next_asks.saturating_add(1);
        if from >= MAX_SLOTS {
            return Ok(None);
        }
        let Some(term) = self.term(which) else {
            return Ok(None);
        };
        let reach = self.reach;
        let own = which as usize % SEARCHES;
        let found = next_of_own(
            &mut *self.view,
            &mut self.searches,
            own,
            &reach,
            &term,
            from,
            always,
        )?;
        let Some(landed) = found else {
            return Ok(None);
        };
        self.last = landed.part;
        Ok(Some(Landing {
            slot: landed.slot,
            vouched: landed.vouched,
        }))
    }

    /// The term of a number, where the volume has its list, and as many cells as the view. Where it does not, nothing
    /// of the volume stands here.
    fn term(&self, which: u32) -> Option<SoughtTerm>
        ensures { TermEnds self.now.reach self.now.sought.now.terms.items which (V.seen self.now.view.now) result }
    {
        let geometry = self.reach.volume.geometry;
        if self.view.cells() != geometry.cells() {
            return None;
        }
        let Some(term) = self.sought.terms.get(which as usize) else {
            return None;
        };
        if term.list >= geometry.lists() {
            return None;
        }
        Some(*term)
    }
}

impl<'a, V: View> Lists for TermLists<'a, V> {
    ghost use Rattle.posting_list.specs.Over.{lists_of};
    ghost use Rattle.posting_list.specs.States.{KnowsPart};

    ghost state = { λ t. lists_of t };

    ghost knows = { λ t slot. KnowsPart t.reach (V.seen t.view.now) t.last slot };

    fn count(&self) -> u32 {
        self.sought.terms.len() as u32
    }

    fn next(&mut self, which: u32, from: u32) -> Result<Option<u32>, Fault> {
        let Some(landing) = self.come_to(which, from, true)? else {
            return Ok(None);
        };
        Ok(Some(landing.slot))
    }

    fn land(&mut self, which: u32, from: u32) -> Result<Option<Landing>, Fault> {
        self.come_to(which, from, false)
    }

    fn has(&mut self, which: u32, slot: u32) -> Result<bool, Fault> {
        self.has_asks = self.has_asks.saturating_add(1);
        let Some(term) = self.term(which) else {
            return Ok(false);
        };
        let reach = self.reach;
        let own = which as usize % SEARCHES;
        own_has(
            &mut *self.view,
            &mut self.searches,
            own,
            &reach,
            &term,
            slot,
        )
    }

    fn confirm(&mut self, which: u32, slot: u32) -> Result<bool, Fault> {
        self.has_asks = self.has_asks.saturating_add(1);
        let Some(term) = self.term(which) else {
            return Ok(false);
        };
        let reach = self.reach;
        let own = which as usize % SEARCHES;
        let found = own_confirm(
            &mut *self.view,
            &mut self.searches,
            own,
            &reach,
            &term,
            slot,
        )?;
        self.last = found;
        Ok(found.is_some())
    }
}

/// Adds a part behind the others.
fn keep(parts: &mut Vec<Part>, part: Part) -> Result<(), NoMemory>
    ensures { IfOk result (λ _. parts.new.items ≡ parts.old.items ++ part ∷ []) }
{
    memory::push(parts, part)?;
    Ok(())
}
