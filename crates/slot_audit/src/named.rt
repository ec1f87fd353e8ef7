//! The cells that journals name.
ghost use Rattle.std.specs.Prelude.{◌↔◌, IsTrue, IfOk, OnOk, Contains};
ghost use Rattle.std.specs.List.Sorted.{IsNonDecreasing};
ghost use Rattle.log_audit.specs.KeptVolumes.{image_in};
ghost use Rattle.log_audit.specs.Kept.{image_of_kept};
ghost use Rattle.log_audit.specs.Stored.{FitsInSlot};
ghost use Rattle.slot_audit.specs.Strays.{AreNamed};
ghost use Rattle.slot_audit.specs.Targets.{AddsTargets};

use crate::copies::target_at;
use cell_types::{NoMemory, memory};
use log_audit::{KeptCells, KeptVolume, StoredSlot};
use std::alloc::Global;

/// The numbers of the cells that the journals of done slots name, in order, 4 bytes each.
#[derive(Drop)]
pub struct NamedCells {
    pub(crate) cells: Vec<u32>,
}

impl NamedCells {
    /// Whether a journal names the cell.
    pub(crate) fn has(&self, cell: u32) -> bool
        requires { IsNonDecreasing self.now.cells.items }
        ensures { IsTrue result ↔ Contains self.now.cells.items cell }
    {
        let Ok(_place) = self.cells.binary_search(&cell) else {
            return false;
        };
        true
    }
}

/// The cells that the journals of a volume's done slots name.
pub(crate) fn named_cells(alloc: Global, volume: &KeptVolume) -> Result<NamedCells, NoMemory>
    ensures { IfOk result (λ named. AreNamed volume.now.geometry (image_in volume.now) named) }
{
    let mut cells = Vec::new(alloc);
    for slot in 0..volume.geometry.slots() {
        let Some(stored) = volume.stored_slot(slot) else {
            continue;
        };
        push_targets(&volume.kept, &stored, &mut cells)?;
    }
    cells.sort_unstable();
    Ok(NamedCells { cells })
}

/// Adds the cells that a slot's journal names.
fn push_targets(kept: &KeptCells, stored: &StoredSlot, cells: &mut Vec<u32>) -> Result<(), NoMemory>
    requires cells { FitsInSlot stored.now }
    ensures { OnOk result (AddsTargets (image_of_kept kept.now) stored.now stored.now.journal cells.old.items
        cells.new.items) }
{
    let first = stored.journal_at();
    for place in 0..stored.journal {
        let Some(target) = target_at(kept, first + place) else {
            continue;
        };
        memory::push(cells, target)?;
    }
    Ok(())
}
