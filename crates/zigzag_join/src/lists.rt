//! Lists of slots that can be asked for the next slot at or past one, and whether they have one.
ghost use Rattle.std.specs.Prelude.{◌≡◌, ◌<◌, ◌≤◌, ℕ};
ghost use Rattle.cell_types.specs.declared.geometry.TheConstants.{MAX_SLOTS};
ghost use Rattle.zigzag_join.specs.Lists.{
  ListsState,
  Keeps,
  ListNextEnds,
  LandEnds,
  HasEnds,
  AsksNext,
  AsksHas,
  ConfirmEnds,
  KnowsHad,
  KnowsLanding,
  KnowsNext,
};

use cell_types::Fault;

/// A slot that a list has come to.
#[derive(Clone, Copy)]
pub struct Landing {
    pub slot: u32,
    /// Whether the list vouches for the slot, which is live then. Where it does not say so, it may have it all the same.
    pub vouched: bool,
}

/// Some lists of slots. A slot is a number below 16,777,216; the slot behind the last one may be asked for too.
pub trait Lists {
    /// What the lists are, for contracts: which slots they must not pass, for which they vouch, which are live, what
    /// they may name as evidence, and how many reads an ask may cost.
    ghost state: { Self → ListsState };

    /// What the lists know of a slot that one of them has answered, until one of them is asked again.
    ghost knows: { Self → ℕ → Type 0 };

    /// How many lists there are.
    fn count(&self) -> u32
        ensures count { result ≡ (state self.now).lists };

    /// A slot of a list at or past one, which is live, `None` where there is none. Between the two there is no slot
    /// that the list must not pass.
    fn next(&mut self, which: u32, from: u32) -> Result<Option<u32>, Fault>
        requires which { which < (state self.old).lists }
        requires from { from ≤ MAX_SLOTS }
        ensures kept { Keeps (state self.old) (state self.new) }
        ensures asks { AsksNext (state self.old) (state self.new) }
        ensures knows { KnowsNext (knows self.new) result }
        ensures ends { ListNextEnds which from (state self.old) (state self.new) result };

    /// The same as `next`, but that the slot need be live only where the list vouches for it. A list that does need not
    /// be asked whether it has it.
    fn land(&mut self, which: u32, from: u32) -> Result<Option<Landing>, Fault>
        requires which { which < (state self.old).lists }
        requires from { from ≤ MAX_SLOTS }
        ensures kept { Keeps (state self.old) (state self.new) }
        ensures asks { AsksNext (state self.old) (state self.new) }
        ensures knows { KnowsLanding (knows self.new) result }
        ensures ends { LandEnds which from (state self.old) (state self.new) result }
    {
        let Some(slot) = self.next(which, from)? else {
            return Ok(None);
        };
        Ok(Some(Landing {
            slot,
            vouched: false,
        }))
    }

    /// Whether a list has the slot. It has each slot that it must not pass, and vouches for each that it has.
    fn has(&mut self, which: u32, slot: u32) -> Result<bool, Fault>
        requires which { which < (state self.old).lists }
        requires slot { slot < MAX_SLOTS }
        ensures kept { Keeps (state self.old) (state self.new) }
        ensures asks { AsksHas (state self.old) (state self.new) }
        ensures ends { HasEnds which slot (state self.old) (state self.new) result };

    /// The same as `has`, and a slot that the list has is live.
    fn confirm(&mut self, which: u32, slot: u32) -> Result<bool, Fault>
        requires which { which < (state self.old).lists }
        requires slot { slot < MAX_SLOTS }
        ensures kept { Keeps (state self.old) (state self.new) }
        ensures asks { AsksHas (state self.old) (state self.new) }
        ensures knows { KnowsHad (knows self.new) slot result }
        ensures ends { ConfirmEnds which slot (state self.old) (state self.new) result };
}
