//! Rule 8: what stands in the places of blocks.
ghost use Rattle.std.specs.Prelude.{◌<◌, ◌≤◌, ◌+◌, ◌↔◌, ◌^◌, ◌⊎◌, IsTrue};
ghost use Rattle.tamper_rules.specs.Rules.{Entries, HoldsInOrder};
ghost use Rattle.volume_meaning.specs.Nodes.{IsBlockOf};
ghost use Rattle.log_audit.specs.Kept.{image_of_kept};
ghost use Rattle.log_audit.specs.Findings.{FindsBroken};
ghost use Rattle.log_audit.specs.Least.{FindsPart};
ghost use Rattle.list_audit.specs.Blocks.{AreBlocksForTwo};
ghost use Rattle.list_audit.specs.Entries.{KeepsEntryRule, BlockAsks, PlacesAsk};

use crate::blocks::BEHIND_POINTERS;
use crate::found::ListBlocks;
use crate::held_posting::posting_at;
use crate::listed::ListBlock;
use cell_types::{Evidence, Geometry};
use log_audit::{KeptCells, lies_behind, lower_of};
use tamper_rules::BLOCK_OUT_OF_ORDER;
use volume_meaning::{BLOCK_CELLS, FIRST_POINTER};

/// The least cell of a block at which rule 8 is broken, of these blocks of all lists. Rule 8 asks the same of a block whosever
/// it is, so that two lists of it suffice.
pub fn first_broken_entry(
    kept: &KeptCells,
    geometry: &Geometry,
    blocks: &ListBlocks,
) -> Option<Evidence>
    requires { AreBlocksForTwo geometry.now (image_of_kept kept.now) blocks.now }
    ensures { FindsBroken geometry.now (image_of_kept kept.now) Entries result }
{
    let mut least = None;
    for block in &blocks.blocks {
        // Blocks may meet where cells were tampered with, and what lies behind was found.
        if lies_behind(&least, block.block) {
            continue;
        }
        least = lower_of(least, first_in_block(kept, geometry, block));
    }
    least
}

/// The first cell of a block at which it breaks rule 8. Nothing is asked of its pointer places.
fn first_in_block(kept: &KeptCells, geometry: &Geometry, listed: &ListBlock) -> Option<Evidence>
    requires { IsBlockOf geometry.now (image_of_kept kept.now) listed.now.list listed.now.block }
    ensures { FindsPart geometry.now (image_of_kept kept.now) Entries
        (BlockAsks (image_of_kept kept.now) listed.now.block) result }
{
    let entries = first_in_places(kept, geometry, listed, 0, FIRST_POINTER);
    let behind = first_in_places(kept, geometry, listed, BEHIND_POINTERS, BLOCK_CELLS);
    lower_of(entries, behind)
}

/// The same of its places from one on and below another, none of which is a pointer place.
fn first_in_places(
    kept: &KeptCells,
    geometry: &Geometry,
    listed: &ListBlock,
    from: u32,
    to: u32,
) -> Option<Evidence>
    requires block { IsBlockOf geometry.now (image_of_kept kept.now) listed.now.list listed.now.block }
    requires places { to ≤ FIRST_POINTER ⊎ BEHIND_POINTERS ≤ from }
    requires most { to ≤ BLOCK_CELLS }
    ensures { FindsPart geometry.now (image_of_kept kept.now) Entries
        (PlacesAsk (image_of_kept kept.now) listed.now.block from to) result }
{
    let _cells = geometry.cells();
    let block = listed.block;
    for place in from..to {
        let cell = block + place;
        let Some(found) = kept.at(cell) else {
            // Mostly nothing stands behind the last entry.
            if kept.are_blank(cell, block + to) {
                return None;
            }
            continue;
        };
        if !keeps_entry_rule(kept, block, place) {
            return Some(Evidence {
                rule: BLOCK_OUT_OF_ORDER,
                cell,
                found,
            });
        }
    }
    None
}

/// Whether a place of a block before its pointers or behind them, where it is written, keeps rule 8.
fn keeps_entry_rule(kept: &KeptCells, block: u32, place: u32) -> bool
    requires room { block + BLOCK_CELLS ≤ 2 ^ 31 }
    requires place { place < FIRST_POINTER ⊎ BEHIND_POINTERS ≤ place }
    ensures { IsTrue result ↔ KeepsEntryRule (image_of_kept kept.now) block place }
{
    if place >= BEHIND_POINTERS {
        return false;
    }
    is_in_order(kept, block, place)
}

/// Whether a posting stands at an entry place, which is the first or behind one with a smaller key.
fn is_in_order(kept: &KeptCells, block: u32, place: u32) -> bool
    requires room { block + BLOCK_CELLS ≤ 2 ^ 31 }
    requires place { place < FIRST_POINTER }
    ensures { IsTrue result ↔ HoldsInOrder (image_of_kept kept.now) block place }
{
    let Some(posting) = posting_at(kept, block + place) else {
        return false;
    };
    if place == 0 {
        return true;
    }
    let Some(before) = posting_at(kept, block + (place - 1)) else {
        return false;
    };
    before.key < posting.key
}
