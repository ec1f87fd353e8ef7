//! Rule 10: whether each pointer of the posting lists leads where it should. A pointer place of a block is blank, or holds a
//! jump cell to a block of the same list: the block that it stands in is full, the target's 256 cells lie in the pool, before
//! the edge, in the block part of one slot, a key of the target's front lies in the pointer's span, and the target's cells
//! meet no other block, no block of another list, and no node of the tree.
//!
//! Of the block at 804 whose greatest key is 32,512, where a jump cell to the block at 9000 stands at place 159, which is
//! cell 963:
//!
//!     place 159     128 + 15 * 2 + 1: level 2, digit 2
//!     its span      32,512 + 2 * 256 = 33,024 and 255 keys more
//!     kept          where a posting with such a key stands at one of the cells 9000 to 9127
//!
//! Which blocks and nodes a target meets is asked of their numbers in order, by bisection.
ghost use Rattle.volume_meaning.specs.Nodes.{IsBlockOf};
ghost use Rattle.tamper_rules.specs.Rules.{Pointers};
ghost use Rattle.log_audit.specs.KeptVolumes.{FindsIn, FindsPartIn, KeepsBelow, image_in};
ghost use Rattle.list_audit.specs.Blocks.{AreBlocksForTwo};
ghost use Rattle.tree_audit.specs.Nodes.{AreNodes};
ghost use Rattle.tree_audit.specs.Leading.{PointerAsks};

use crate::leads::leads_well;
use crate::nodes::TreeNodes;
use cell_types::Evidence;
use list_audit::{ListBlock, ListBlocks};
use log_audit::{KeptVolume, lies_behind, lower_of};
use tamper_rules::LOST_POINTER;
use volume_meaning::{FIRST_POINTER, POINTER_PLACES};

/// How many digits a level has.
const DIGITS: u32 = 15;

/// The least pointer place at which rule 10 is broken.
pub fn first_broken_pointer(
    volume: &KeptVolume,
    blocks: &ListBlocks,
    nodes: &TreeNodes,
) -> Option<Evidence>
    requires met { KeepsBelow volume.now 10 }
    requires blocks { AreBlocksForTwo volume.now.geometry (image_in volume.now) blocks.now }
    requires nodes { AreNodes volume.now.geometry (image_in volume.now) nodes.now }
    ensures { FindsIn volume.now Pointers result }
{
    let mut least = None;
    for block in &blocks.blocks {
        // Blocks may meet where cells were tampered with, and what lies behind was found.
        if lies_behind(&least, block.block) {
            continue;
        }
        least = lower_of(least, first_in_block(volume, blocks, nodes, block));
    }
    least
}

/// The first pointer place of a block at which rule 10 is broken.
fn first_in_block(
    volume: &KeptVolume,
    blocks: &ListBlocks,
    nodes: &TreeNodes,
    listed: &ListBlock,
) -> Option<Evidence>
    requires met { KeepsBelow volume.now 10 }
    requires blocks { AreBlocksForTwo volume.now.geometry (image_in volume.now) blocks.now }
    requires nodes { AreNodes volume.now.geometry (image_in volume.now) nodes.now }
    requires block { IsBlockOf volume.now.geometry (image_in volume.now) listed.now.list listed.now.block }
    ensures { FindsPartIn volume.now Pointers
        (PointerAsks volume.now.geometry (image_in volume.now) listed.now.list listed.now.block) result }
{
    let _cells = volume.geometry.cells();
    for pointer in 0..POINTER_PLACES {
        let cell = listed.block + (FIRST_POINTER + pointer);
        let Some(found) = volume.kept.at(cell) else {
            continue;
        };
        if !leads_well(
            volume,
            blocks,
            nodes,
            listed,
            pointer / DIGITS,
            pointer % DIGITS + 1,
        ) {
            return Some(Evidence {
                rule: LOST_POINTER,
                cell,
                found,
            });
        }
    }
    None
}
