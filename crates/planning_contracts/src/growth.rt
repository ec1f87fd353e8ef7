//! Entries that are inserted into a list and into the tree.
ghost use Rattle.std.specs.Prelude.{◌≡◌, ◌<◌, ◌≤◌, ◌+◌, ◌%◌, ◌⊎◌, ℕ, None, IsTrue};
ghost use Rattle.cell_pool.specs.Grants.{TakesFront, free_cells};
ghost use Rattle.cell_types.specs.declared.geometry.TheConstants.{MAX_SLOTS};
ghost use Rattle.hash_tree.specs.Inserting.{InsertsEntry};
ghost use Rattle.hash_tree.specs.Readiness.{IsReadyPlace};
ghost use Rattle.jump_insertion.specs.Inserting.{InsertsPosting};
ghost use Rattle.jump_insertion.specs.Readiness.{IsReadyList};
ghost use Rattle.volume_meaning.specs.declared.blocks.TheConstants.{BLOCK_CELLS};
ghost use Rattle.volume_meaning.specs.declared.nodes.TheConstants.{NODE_CELLS};
ghost use Rattle.worm_device.specs.Overlays.{of_overlay};

use cell_pool::{GrowthFault, Pool};
use cell_types::Volume;
use hash_tree::{Level, Open};
use jump_block::Entry;
use jump_insertion::NewEntry;
use worm_device::{Overlay, View};

/// `insert` of a list.
pub fn insert_posting_again<V: View>(
    overlay: &mut Overlay<'_, V>,
    pool: &mut Pool,
    head: u32,
    floor: u32,
    new_entry: NewEntry,
) -> Result<Entry, GrowthFault>
    requires well_formed { new_entry.key % 256 ≤ new_entry.last }
    requires head { head + BLOCK_CELLS ≤ floor }
    requires floor { floor ≤ (of_overlay V.seen overlay.old).fresh }
    requires fresh { (of_overlay V.seen overlay.old).fresh ≤ pool.old.next }
    requires room { BLOCK_CELLS ≤ free_cells pool.old }
    requires free { (cell : ℕ) → pool.old.next ≤ cell → (of_overlay V.seen overlay.old).planned cell ≡ None }
    requires ready { IsTrue (of_overlay V.seen overlay.old).base.tells →
        IsReadyList (of_overlay V.seen overlay.old) head floor pool.old.next new_entry.key }
    ensures pool { (pool.new ≡ pool.old) ⊎ TakesFront pool.old pool.new BLOCK_CELLS pool.old.next }
    ensures inserts { InsertsPosting head floor pool.old.next pool.new.next new_entry
        (of_overlay V.seen overlay.old) (of_overlay V.seen overlay.new) result }
{
    jump_insertion::insert(overlay, pool, head, floor, new_entry)
}

/// `insert` of the tree.
pub fn insert_entry_again<V: View>(
    overlay: &mut Overlay<'_, V>,
    pool: &mut Pool,
    volume: &Volume,
    place: Open,
    level: &Level,
    slot: u32,
) -> Result<u32, GrowthFault>
    requires slot { slot < MAX_SLOTS }
    requires room { NODE_CELLS ≤ free_cells pool.old }
    requires ready { IsReadyPlace volume.now.geometry level.now place pool.old.next (of_overlay V.seen overlay.old) }
    ensures { InsertsEntry volume.now.geometry level.now place slot pool.old pool.new
        (of_overlay V.seen overlay.old) (of_overlay V.seen overlay.new) result }
{
    hash_tree::insert(overlay, pool, volume, place, level, slot)
}
