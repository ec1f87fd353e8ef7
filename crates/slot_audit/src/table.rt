//! The tiles of one slot, by their first cells.
ghost use Rattle.std.specs.Prelude.{◌≡◌, ◌↔◌, IsTrue, IfOk, OnOk};
ghost use Rattle.std.specs.Ordering.{nat_cmp};
ghost use Rattle.std.specs.BTreeMap.{get};
ghost use Rattle.log_audit.specs.Kept.{image_of_kept};
ghost use Rattle.log_audit.specs.Stored.{FitsInSlot};
ghost use Rattle.slot_audit.specs.Tables.{HasAtLeast, IsTable, IsWithTile};

use crate::tile::{Tile, tile_at};
use cell_types::{NoMemory, memory};
use log_audit::{KeptCells, StoredSlot};
use std::alloc::Global;
use std::collections::BTreeMap;

/// How many cells belong to each tile of the slot's own block part, by its first cell.
pub(crate) fn tiles_of(
    alloc: Global,
    kept: &KeptCells,
    stored: &StoredSlot,
) -> Result<BTreeMap<u32, u32>, NoMemory>
    requires { FitsInSlot stored.now }
    ensures { IfOk result (λ tiles.
        IsTable (image_of_kept kept.now) stored.now stored.now.journal (λ t. get nat_cmp tiles t)) }
{
    let mut tiles = BTreeMap::new(alloc);
    let from = stored.journal_at();
    let end = stored.document_at();
    for place in 0..stored.journal {
        let Some(tile) = tile_at(kept, from + place) else {
            continue;
        };
        if tile.target < stored.start {
            continue;
        }
        if end <= tile.target {
            continue;
        }
        add_tile(&mut tiles, tile)?;
    }
    Ok(tiles)
}

/// Adds a tile. Where one begins there already, the greater size holds.
fn add_tile(tiles: &mut BTreeMap<u32, u32>, tile: Tile) -> Result<(), NoMemory>
    ensures { OnOk result (IsWithTile (λ t. get nat_cmp tiles.old t) (λ t. get nat_cmp tiles.new t) tile) }
{
    if has_at_least(tiles, tile) {
        return Ok(());
    }
    let _before = memory::insert(tiles, tile.target, tile.size)?;
    Ok(())
}

/// Whether a tile of that size, or of a greater one, begins there already.
fn has_at_least(tiles: &BTreeMap<u32, u32>, tile: Tile) -> bool
    ensures { IsTrue result ↔ HasAtLeast (λ t. get nat_cmp tiles.now t) tile }
{
    match size_at(tiles, tile.target) {
        Some(size) => tile.size <= size,
        None => false,
    }
}

/// How many cells belong to the tile that begins there, if one does.
fn size_at(tiles: &BTreeMap<u32, u32>, target: u32) -> Option<u32>
    ensures { result ≡ get nat_cmp tiles.now target }
{
    tiles.get(&target).copied()
}
