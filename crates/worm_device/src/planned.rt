//! Cells that are planned, and for whom.
ghost use Rattle.std.specs.Prelude.{◌≡◌, ◌<◌, ◌≤◌, ℕ, false, None, Some, OnOk, OnErr};
ghost use Rattle.std.specs.Ordering.{nat_cmp};
ghost use Rattle.std.specs.BTreeMap.{get, Updates};
ghost use Rattle.worm_device.specs.Owned.{AreAsBefore, AreUnplanned};

use crate::Owner;
use crate::overlay::{OVERLAY_CELLS, PlannedCells};
use cell_types::{Cell, NoMemory, memory};
use std::alloc::Global;
use std::collections::BTreeMap;

impl PlannedCells {
    /// Nothing is planned yet. It takes no memory.
    pub fn new(alloc: Global) -> PlannedCells
        ensures { (cell : ℕ) → get nat_cmp result.planned cell ≡ None }
    {
        PlannedCells {
            planned: BTreeMap::new(alloc),
            owners: BTreeMap::new(alloc),
        }
    }

    /// Adds a cell that is not planned yet. Without memory nothing has changed.
    pub(crate) fn add(&mut self, at: u32, value: Cell, owner: Owner) -> Result<(), NoMemory>
        requires inside { at < OVERLAY_CELLS }
        requires free { get nat_cmp self.old.planned at ≡ None }
        ensures planned { OnOk result (Updates nat_cmp self.old.planned self.new.planned at (Some value)) }
        ensures owners { OnOk result (Updates nat_cmp self.old.owners self.new.owners at (Some owner)) }
        ensures unchanged { OnErr result (AreAsBefore self.old.planned self.old.owners self.new.planned self.new.owners) }
    {
        // Known of a cell once its bytes are asked for: there are sixteen, and not all of them are zero.
        let _bytes = value.bytes();
        memory::insert(&mut self.owners, at, owner)?;
        if let Err(lack) = memory::insert(&mut self.planned, at, value) {
            self.owners.remove(&at);
            return Err(lack);
        }
        Ok(())
    }

    /// The planned cells, by their numbers.
    pub(crate) fn cells(&self) -> &BTreeMap<u32, Cell>
        ensures { result.now ≡ self.now.planned }
    {
        &self.planned
    }

    /// The planned cell of this number, `None` where it is not planned.
    pub(crate) fn cell(&self, at: u32) -> Option<Cell>
        ensures { result ≡ get nat_cmp self.now.planned at }
    {
        self.planned.get(&at).copied()
    }

    /// Whether some cell is planned from this one up to, but not with, another.
    pub(crate) fn plans_between(&self, from: u32, to: u32) -> bool
        requires forward { from ≤ to }
        ensures none { result ≡ false → AreUnplanned self.now.planned from to }
    {
        let Some(_first) = self.planned.range(from..to).next() else {
            return false;
        };
        true
    }

    /// For whom a planned cell is, `None` exactly where the cell is not planned.
    pub(crate) fn owner(&self, at: u32) -> Option<Owner>
        ensures { result ≡ get nat_cmp self.now.owners at }
    {
        self.owners.get(&at).copied()
    }
}
