//! Blocks whose pointers were followed.
ghost use Rattle.std.specs.Prelude.{◌≡◌, ◌<◌, ◌≤◌, ◌+◌, ◌^◌, ℕ, Bool, IsTrue, OnOk};
ghost use Rattle.list_audit.specs.Blocks.{IsAnother};
ghost use Rattle.list_audit.specs.Following.{AddsFollowed, HasNoneFollowed, IsFollowedAt, IsFollowedFor, IsPassedAt};
ghost use Rattle.list_audit.specs.Numbers.{block_number};
ghost use Rattle.volume_meaning.specs.declared.blocks.TheConstants.{BLOCK_CELLS};

use crate::between::{first_between, last_between};
use crate::blocks::BEHIND_POINTERS;
use crate::listed::{LIST_STEP, ListBlock};
use cell_types::{NoMemory, memory};
use std::alloc::Global;
use std::collections::BTreeSet;
use volume_meaning::{FIRST_POINTER, POINTER_PLACES};

/// In place of a list, that of a block that was followed for two lists, and so for every list. No list has this number.
const EVERY_LIST: u32 = 65_536;

/// So many pointer places are sooner followed again than looked for.
const FEW_PLACES: u32 = 8;

/// The numbers of the blocks whose pointers were followed so far, 8 bytes each.
#[derive(Drop)]
pub(crate) struct FollowedBlocks {
    pub(crate) numbers: BTreeSet<u64>,
}

impl FollowedBlocks {
    /// No block was followed yet. It takes no memory.
    pub(crate) fn none(alloc: Global) -> FollowedBlocks
        ensures { HasNoneFollowed result.numbers }
    {
        FollowedBlocks {
            numbers: BTreeSet::new(alloc),
        }
    }

    /// Adds a block. Where it was followed for another list before, what its pointers lead to is there for two lists: then it
    /// is followed for every list.
    pub(crate) fn add(&mut self, listed: ListBlock, other: Option<u16>) -> Result<(), NoMemory>
        ensures { OnOk result ((for_two : Bool) → IsAnother for_two listed.list other
            → AddsFollowed for_two listed.list listed.block self.old.numbers self.new.numbers) }
    {
        if self.has_other(listed.block, other) {
            memory::insert_new(&mut self.numbers, number_of(EVERY_LIST, listed.block))?;
            return Ok(());
        }
        let number = number_of(u32::from(listed.list), listed.block);
        memory::insert_new(&mut self.numbers, number)?;
        Ok(())
    }

    /// Whether the block was followed for this list, if there is one.
    fn has_other(&self, block: u32, other: Option<u16>) -> bool
        ensures { IsTrue result → IsFollowedFor self.now.numbers block other }
    {
        let Some(list) = other else {
            return false;
        };
        self.numbers.contains(&number_of(u32::from(list), block))
    }

    /// The first pointer place of a block that is none of the last one before it of the same list, and of every list.
    pub(crate) fn first_pointer_of(&self, listed: &ListBlock) -> u32
        ensures from { FIRST_POINTER ≤ result }
        ensures passed { (pointer : ℕ) → FIRST_POINTER ≤ pointer → pointer < result
            → IsPassedAt self.now.numbers listed.now.list (listed.now.block + pointer) }
    {
        let every = self.first_behind(EVERY_LIST, listed.block);
        if BEHIND_POINTERS - FEW_PLACES <= every {
            return every;
        }
        let own = self.first_behind(u32::from(listed.list), listed.block);
        own.max(every)
    }

    /// The place behind the last pointer place of a block, from the first on, that is none of the next one of the same list,
    /// and of every list.
    pub(crate) fn behind_pointers_of(&self, listed: &ListBlock, first: u32) -> u32
        requires { listed.now.block + BLOCK_CELLS ≤ 2 ^ 32 }
        ensures most { result ≤ BEHIND_POINTERS }
        ensures passed { (pointer : ℕ) → result ≤ pointer → pointer < BEHIND_POINTERS
            → IsPassedAt self.now.numbers listed.now.list (listed.now.block + pointer) }
    {
        if BEHIND_POINTERS - FEW_PLACES <= first {
            return BEHIND_POINTERS;
        }
        let every = self.last_before(EVERY_LIST, listed.block);
        if every <= FIRST_POINTER + FEW_PLACES {
            return every;
        }
        let own = self.last_before(u32::from(listed.list), listed.block);
        own.min(every)
    }

    /// The first pointer place of a block that is none of the last one before it that was followed for this list.
    fn first_behind(&self, list: u32, block: u32) -> u32
        requires { list ≤ EVERY_LIST }
        ensures from { FIRST_POINTER ≤ result }
        ensures passed { (pointer : ℕ) → FIRST_POINTER ≤ pointer → pointer < result
            → IsFollowedAt self.now.numbers list (block + pointer) }
    {
        let number = number_of(list, block);
        // Two blocks that begin farther apart have no pointer place in common.
        let reach = u64::from(block.min(POINTER_PLACES - 1));
        let Some(before) = last_between(&self.numbers, number - reach, number) else {
            return FIRST_POINTER;
        };
        BEHIND_POINTERS - (number - before) as u32
    }

    /// The place behind the last pointer place of a block that is none of the next one that was followed for this list.
    fn last_before(&self, list: u32, block: u32) -> u32
        requires room { block + BLOCK_CELLS ≤ 2 ^ 32 }
        requires list { list ≤ EVERY_LIST }
        ensures most { result ≤ BEHIND_POINTERS }
        ensures passed { (pointer : ℕ) → result ≤ pointer → pointer < BEHIND_POINTERS
            → IsFollowedAt self.now.numbers list (block + pointer) }
    {
        let next = number_of(list, block) + 1;
        let Some(after) = first_between(&self.numbers, next, next + u64::from(POINTER_PLACES - 1))
        else {
            return BEHIND_POINTERS;
        };
        FIRST_POINTER + 1 + (after - next) as u32
    }
}

/// The number of a block for a list, which no other block and list have.
fn number_of(list: u32, block: u32) -> u64
    requires { list ≤ EVERY_LIST }
    ensures { result ≡ block_number list block }
{
    u64::from(list) * LIST_STEP + u64::from(block)
}
