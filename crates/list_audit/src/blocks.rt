//! The blocks of all lists: each of a list once, for each list that leads to it or for two of them.
//!
//! Two suffice to go on from, too: what a block of two lists leads to is of both, or is passed over since it is there for
//! two others.
ghost use Rattle.std.specs.Prelude.{◌≡◌, ◌<◌, ◌+◌, IfOk, OnOk, Some, slice_get};
ghost use Rattle.cell_types.specs.Image.{Image};
ghost use Rattle.cell_types.specs.Layout.{all_lists};
ghost use Rattle.log_audit.specs.Kept.{image_of_kept};
ghost use Rattle.list_audit.specs.Blocks.{AreBlocks, AreListBlocks, AreBlocksForTwo, AreClosedBelow, AreFound, AreTaken, LeadsAmong};
ghost use Rattle.list_audit.specs.Following.{AreFollowed};

use crate::followed::FollowedBlocks;
use crate::found::{FoundBlocks, ListBlocks};
use crate::listed::ListBlock;
use crate::targets::pointer_target;
use cell_types::{Geometry, NoMemory, memory};
use log_audit::KeptCells;
use std::alloc::Global;
use volume_meaning::{FIRST_POINTER, POINTER_PLACES};

/// The place behind the last pointer place of a block.
pub(crate) const BEHIND_POINTERS: u32 = FIRST_POINTER + POINTER_PLACES;

/// The blocks of all lists, the time list among them, each of a list once, by rising numbers.
///
/// # Errors
///
/// `NoMemory`, also where there are 2^32 blocks.
pub fn blocks_of(
    alloc: Global,
    kept: &KeptCells,
    geometry: &Geometry,
) -> Result<ListBlocks, NoMemory>
    ensures { IfOk result (λ blocks. AreListBlocks geometry.now (image_of_kept kept.now) blocks) }
{
    blocks_in_order(alloc, kept, geometry, false)
}

/// The blocks of all lists, the time list among them, each of a list once, and of two lists at most: a block to which
/// more lists lead is one of two of them. They come by rising numbers.
///
/// # Errors
///
/// `NoMemory`, also where there are 2^32 blocks.
pub fn blocks_for_two(
    alloc: Global,
    kept: &KeptCells,
    geometry: &Geometry,
) -> Result<ListBlocks, NoMemory>
    ensures { IfOk result (λ blocks. AreBlocksForTwo geometry.now (image_of_kept kept.now) blocks) }
{
    blocks_in_order(alloc, kept, geometry, true)
}

/// The blocks of all lists, all or those for two, by rising numbers.
fn blocks_in_order(
    alloc: Global,
    kept: &KeptCells,
    geometry: &Geometry,
    for_two: bool,
) -> Result<ListBlocks, NoMemory>
    ensures { IfOk result (λ blocks. AreBlocks for_two geometry.now (image_of_kept kept.now) blocks) }
{
    let found = found_blocks(alloc, kept, geometry, for_two)?;
    found.in_order(alloc)
}

/// The same in the order in which they are found.
fn found_blocks(
    alloc: Global,
    kept: &KeptCells,
    geometry: &Geometry,
    for_two: bool,
) -> Result<FoundBlocks, NoMemory>
    ensures mode { IfOk result (λ found. found.for_two ≡ for_two) }
    ensures taken { IfOk result
        (λ found. AreTaken for_two geometry.now (image_of_kept kept.now) found.blocks.items) }
    ensures found { IfOk result (λ found. AreFound found) }
{
    let mut found = first_blocks(alloc, geometry, for_two)?;
    let mut followed = FollowedBlocks::none(alloc);
    for turn in 0..u32::MAX {
        let Some(from) = found.at(turn) else {
            return Ok(found);
        };
        let other = found.other_list(turn);
        add_targets(kept, geometry, turn, &from, &followed, &mut found)?;
        followed.add(from, other)?;
    }
    // Each of 2^32 - 1 blocks has had its turn, and no memory holds one more.
    memory::count_of(&found.blocks)?;
    Ok(found)
}

/// How many lists there are with the time list.
pub(crate) fn list_count(geometry: &Geometry) -> u16
    ensures { result ≡ all_lists geometry.now }
{
    if geometry.is_stamped() {
        return geometry.lists() + 1;
    }
    geometry.lists()
}

/// The first block of each list.
fn first_blocks(alloc: Global, geometry: &Geometry, for_two: bool) -> Result<FoundBlocks, NoMemory>
    ensures mode { IfOk result (λ found. found.for_two ≡ for_two) }
    ensures closed { IfOk result
        (λ found. (image : Image) → AreClosedBelow for_two geometry.now image 0 found.blocks.items) }
    ensures found { IfOk result (λ found. AreFound found) }
{
    let mut found = FoundBlocks::none(alloc, for_two);
    for list in 0..list_count(geometry) {
        let block = geometry.list_at(list);
        found.add(ListBlock { list, block })?;
    }
    Ok(found)
}

/// Adds each block to which the pointer places of the block of a turn lead. Blocks of a list may meet where cells were
/// tampered with, and what was followed for one of them is not followed again.
fn add_targets(
    kept: &KeptCells,
    geometry: &Geometry,
    turn: u32,
    from: &ListBlock,
    followed: &FollowedBlocks,
    found: &mut FoundBlocks,
) -> Result<(), NoMemory>
    requires found { AreFound found.old }
    requires closed { AreClosedBelow found.old.for_two geometry.now (image_of_kept kept.now) turn found.old.blocks.items }
    requires here { slice_get found.old.blocks.items turn ≡ Some from.now }
    requires followed { AreFollowed found.old.for_two geometry.now (image_of_kept kept.now) followed.now.numbers
        found.old.blocks.items }
    ensures mode { found.new.for_two ≡ found.old.for_two }
    ensures closed { OnOk result
        (AreClosedBelow found.old.for_two geometry.now (image_of_kept kept.now) (turn + 1) found.new.blocks.items) }
    ensures found { OnOk result (AreFound found.new) }
    ensures followed { OnOk result
        (AreFollowed found.old.for_two geometry.now (image_of_kept kept.now) followed.now.numbers found.new.blocks.items) }
    ensures leads { OnOk result
        (LeadsAmong found.old.for_two geometry.now (image_of_kept kept.now) found.new.blocks.items from.now
        BEHIND_POINTERS) }
{
    let _cells = geometry.cells();
    let first = followed.first_pointer_of(from);
    let behind = followed.behind_pointers_of(from, first);
    for pointer in first..behind {
        let Some(block) = pointer_target(kept, geometry, from.block + pointer) else {
            continue;
        };
        found.add(ListBlock {
            list: from.list,
            block,
        })?;
    }
    Ok(())
}
