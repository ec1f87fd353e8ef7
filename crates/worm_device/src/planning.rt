//! Planning cells over a view.
ghost use Rattle.std.specs.Prelude.{◌≡◌, ◌≤◌, ◌<◌, ◌↔◌, ℕ, None, IsTrue, IsSome};
ghost use Rattle.std.specs.Ordering.{nat_cmp};
ghost use Rattle.std.specs.BTreeMap.{get};
ghost use Rattle.worm_device.specs.Overlays.{Plans, of_overlay};

use crate::overlay::{OVERLAY_CELLS, Overlay, PlannedCells};
use crate::{Owner, View};
use cell_types::{Cell, NoMemory};
use std::collections::BTreeMap;

impl<'a, V: View> Overlay<'a, V> {
    /// These planned cells over a view.
    pub fn new(view: V, own: &'a mut PlannedCells, fresh: u32) -> Overlay<'a, V>
        requires { fresh ≤ (V.seen view).cells }
        ensures view { result.view ≡ view }
        ensures fresh { result.fresh ≡ fresh }
        ensures same_loan { result.own.ghost_name ≡ own.entry.ghost_name }
        ensures same { result.own.now ≡ own.old }
    {
        Overlay { view, own, fresh }
    }

    /// Plans a cell that is not planned yet, and says for whom. Without memory nothing has changed.
    pub fn plan(&mut self, at: u32, value: Cell, owner: Owner) -> Result<(), NoMemory>
        requires inside { at < OVERLAY_CELLS }
        requires free { (of_overlay V.seen self.old).planned at ≡ None }
        ensures { Plans at value owner (of_overlay V.seen self.old) (of_overlay V.seen self.new) result }
    {
        let own = &mut *self.own;
        own.add(at, value, owner)
    }

    /// Whether the cell is planned.
    pub fn is_planned(&self, at: u32) -> bool
        ensures { IsTrue result ↔ IsSome ((of_overlay V.seen self.now).planned at) }
    {
        self.own.cell(at).is_some()
    }

    /// For whom a planned cell is, `None` exactly where the cell is not planned.
    pub fn owner(&self, at: u32) -> Option<Owner>
        ensures { result ≡ (of_overlay V.seen self.now).owners at }
    {
        self.own.owner(at)
    }

    /// The planned cells, by their numbers.
    pub fn planned(&self) -> &BTreeMap<u32, Cell>
        ensures { (cell : ℕ) → get nat_cmp result.now cell ≡ (of_overlay V.seen self.now).planned cell }
    {
        self.own.cells()
    }

    /// From this cell on nothing below is shown.
    pub fn fresh(&self) -> u32
        ensures { result ≡ (of_overlay V.seen self.now).fresh }
    {
        self.fresh.min(self.view.cells())
    }
}
