//! In whose blocks a cell lies.
ghost use Rattle.std.specs.Prelude.{◌<◌, ◌^◌, ℕ, length, IfSome, IfNone};
ghost use Rattle.tamper_rules.specs.Journals.{LiesInBlocks};
ghost use Rattle.tamper_rules.specs.Rules.{ReserveCells};
ghost use Rattle.log_audit.specs.KeptVolumes.{KeepsRule, image_in};
ghost use Rattle.log_audit.specs.Owning.{AreInRow, HasCell};

use crate::kept_volume::KeptVolume;
use crate::log::Log;

impl KeptVolume {
    /// The slot in whose block part a cell lies, if it lies in one.
    pub fn owner_of(&self, cell: u32) -> Option<u32>
        requires { KeepsRule self.now ReserveCells }
        ensures some { IfSome result (λ m. LiesInBlocks self.now.geometry (image_in self.now) m cell) }
        ensures none { IfNone result ((m : ℕ) → LiesInBlocks self.now.geometry (image_in self.now) m cell → ⊥) }
    {
        let _few = self.geometry.slots();
        let Some(slot) = reserving_slot(&self.log, cell) else {
            return None;
        };
        let Some(stored) = self.stored_slot(slot) else {
            return None;
        };
        if cell < stored.document_at() {
            return Some(slot);
        }
        None
    }
}

/// The slot that reserves a cell, if one does: since reservations follow one another, it is found by bisection.
fn reserving_slot(log: &Log, cell: u32) -> Option<u32>
    requires few { length log.now.slots.items < 2 ^ 32 }
    requires row { AreInRow log.now.slots.items }
    ensures some { IfSome result (λ m. HasCell log.now.slots.items m cell) }
    ensures none { IfNone result ((m : ℕ) → HasCell log.now.slots.items m cell → ⊥) }
{
    let mut low = 0;
    let mut high = log.slots.len() as u32;
    while low < high {
        let middle = low + (high - low) / 2;
        let Some(ended) = log.at(middle) else {
            unreachable!();
        };
        if cell < ended.start() {
            high = middle;
            continue;
        }
        if cell < ended.end() {
            return Some(middle);
        }
        low = middle + 1;
    }
    None
}
