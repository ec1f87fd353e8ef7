//! Rule 9: postings that are some document's.
ghost use Rattle.std.specs.Prelude.{IfOk, IsTrue};
ghost use Rattle.volume_meaning.specs.Nodes.{IsBlockOf};
ghost use Rattle.tamper_rules.specs.Rules.{Postings};
ghost use Rattle.log_audit.specs.KeptVolumes.{FindsIn, FindsPartIn, IsStated, KeepsBelow, image_in};
ghost use Rattle.log_audit.specs.Kept.{image_of_kept};
ghost use Rattle.log_audit.specs.Least.{FindsPart};
ghost use Rattle.list_audit.specs.Blocks.{AreBlocksForTwo, AreOfLists, AreRising, AskedOf};
ghost use Rattle.list_audit.specs.Deciding.{AreDecided, IsDecided};
ghost use Rattle.list_audit.specs.Owed.{IsAllOwed};
ghost use Rattle.list_audit.specs.Owing.{AreOwed, BlockOwes};
ghost use Rattle.list_audit.specs.Tables.{AreOrderedRows};

use crate::blocks::blocks_of;
use crate::found::ListBlocks;
use crate::held_posting::posting_at;
use crate::listed::ListBlock;
use crate::table::{OwedPostings, PostingTable};
use cell_types::{Evidence, Geometry, NoMemory};
use log_audit::{KeptCells, KeptVolume, lies_behind, lower_of};
use std::alloc::Global;
use tamper_rules::FAKE_POSTING;
use volume_meaning::ENTRY_PLACES;

/// The least cell of a block at which rule 9 is broken, of these blocks of all lists, by what documents are owed, where the
/// rules of lower numbers are kept.
///
/// Two lists of a block suffice but where its first posting is owed to both that are known, since a third might not be
/// owed it. There all blocks are listed.
///
/// # Errors
///
/// `NoMemory`.
pub fn first_broken_posting(
    alloc: Global,
    volume: &KeptVolume,
    blocks: &ListBlocks,
    owed: &OwedPostings,
) -> Result<Option<Evidence>, NoMemory>
    requires stated { IsStated volume.now }
    requires blocks { AreBlocksForTwo volume.now.geometry (image_in volume.now) blocks.now }
    requires owed { IsAllOwed volume.now owed.now }
    requires met { KeepsBelow volume.now 9 }
    ensures { IfOk result (λ found. FindsIn volume.now Postings found) }
{
    if are_decided(volume, &blocks.blocks, owed) {
        return Ok(least_fake(volume, &blocks.blocks, owed));
    }
    let all = blocks_of(alloc, &volume.kept, &volume.geometry)?;
    Ok(least_fake(volume, &all.blocks, owed))
}

/// Whether no block begins with a posting that is owed to two of its lists, as far as they are known. These stand one
/// behind the other.
fn are_decided(volume: &KeptVolume, blocks: &[ListBlock], owed: &OwedPostings) -> bool
    requires rising { AreRising blocks.now }
    requires owed { IsAllOwed volume.now owed.now }
    ensures { IsTrue result → AreDecided volume.now.geometry (image_in volume.now) blocks.now }
{
    for place in 1..blocks.len() {
        if !is_decided(volume, &blocks[place - 1], &blocks[place], owed) {
            return false;
        }
    }
    true
}

/// Whether two blocks are not one that begins with a posting which is owed to the lists of both.
fn is_decided(
    volume: &KeptVolume,
    before: &ListBlock,
    listed: &ListBlock,
    owed: &OwedPostings,
) -> bool
    requires owed { IsAllOwed volume.now owed.now }
    ensures { IsTrue result → IsDecided volume.now.geometry (image_in volume.now) before.now listed.now }
{
    if before.block != listed.block {
        return true;
    }
    let Some(posting) = posting_at(&volume.kept, listed.block) else {
        return true;
    };
    let Some(_here) = owed.table.place_of(listed.list, &posting, 0) else {
        return true;
    };
    let Some(_there) = owed.table.place_of(before.list, &posting, 0) else {
        return true;
    };
    false
}

/// The least cell at which one of these blocks breaks rule 9.
fn least_fake(volume: &KeptVolume, blocks: &[ListBlock], owed: &OwedPostings) -> Option<Evidence>
    requires blocks { AreOfLists volume.now.geometry (image_in volume.now) blocks.now }
    requires owed { IsAllOwed volume.now owed.now }
    ensures { FindsPartIn volume.now Postings
        (AskedOf blocks.now (BlockOwes volume.now.geometry (image_in volume.now))) result }
{
    let mut least = None;
    for block in blocks {
        // Blocks may meet where cells were tampered with, and they do not come by rising cells.
        if lies_behind(&least, block.block) {
            continue;
        }
        least = lower_of(
            least,
            first_fake_in(&volume.kept, &volume.geometry, block, &owed.table),
        );
    }
    least
}

/// The first cell of a block at which it breaks rule 9.
fn first_fake_in(
    kept: &KeptCells,
    geometry: &Geometry,
    listed: &ListBlock,
    table: &PostingTable,
) -> Option<Evidence>
    requires block { IsBlockOf geometry.now (image_of_kept kept.now) listed.now.list listed.now.block }
    requires owed { AreOwed geometry.now (image_of_kept kept.now) geometry.now.slots table.now.rows.items }
    requires order { AreOrderedRows table.now.rows.items }
    ensures { FindsPart geometry.now (image_of_kept kept.now) Postings
        (BlockOwes geometry.now (image_of_kept kept.now) listed.now.list listed.now.block) result }
{
    let _cells = geometry.cells();
    let block = listed.block;
    // A block's postings follow one another in the table, too.
    let mut guess = 0;
    for place in 0..u32::from(ENTRY_PLACES) {
        let cell = block + place;
        let Some(posting) = posting_at(kept, cell) else {
            // Mostly nothing stands behind the last posting.
            if kept.are_blank(cell, block + u32::from(ENTRY_PLACES)) {
                return None;
            }
            continue;
        };
        if let Some(at) = table.place_of(listed.list, &posting, guess) {
            guess = at.saturating_add(1);
            continue;
        }
        let Some(found) = kept.at(cell) else {
            unreachable!();
        };
        return Some(Evidence {
            rule: FAKE_POSTING,
            cell,
            found,
        });
    }
    None
}
