//! Blocks that were found, each once.
ghost use Rattle.std.specs.Prelude.{◌≡◌, ◌↔◌, IfOk, IfSome, IsTrue, OnOk, Some, [], slice_get};
ghost use Rattle.list_audit.specs.Blocks.{
  AddsBlock,
  AreDecoded,
  AreFound,
  AreInOrder,
  AreSmall,
  IsAmongBlocks,
  IsAnother,
  IsShared,
};
ghost use Rattle.list_audit.specs.declared.listed.ListBlock.{ListBlock};

use crate::between::numbers_between;
use crate::listed::{BLOCK_STEP, ListBlock};
use cell_types::{NoMemory, memory};
use log_audit::numbers_of;
use std::alloc::Global;
use std::collections::BTreeSet;

/// Blocks of lists by rising numbers, and these numbers.
#[derive(Drop)]
pub struct ListBlocks {
    /// The blocks.
    pub blocks: Vec<ListBlock>,
    /// The number of each, `BLOCK_STEP` times the block plus the list: those of the lists that have a block are neighbours.
    pub numbers: Vec<u64>,
}

/// The blocks that were found so far, in the order in which they were, and their neighbour numbers. Where each block is
/// listed for two, one that two lists have already is passed over.
#[derive(Drop)]
pub(crate) struct FoundBlocks {
    pub(crate) for_two: bool,
    pub(crate) blocks: Vec<ListBlock>,
    /// Of each block another list that had it as it was found, where each is listed for two.
    pub(crate) others: Vec<Option<u16>>,
    pub(crate) numbers: BTreeSet<u64>,
    /// Blocks that two lists have, of those that were passed over. Where many lists lead to a block, most that is found is
    /// one of these, and to look for it here costs least.
    pub(crate) shared: BTreeSet<u64>,
}

/// Which lists have a block, as far as it is asked.
#[derive(Clone, Copy)]
struct Holders {
    /// One of them.
    one: Option<u16>,
    /// Whether there are two.
    two: bool,
}

impl FoundBlocks {
    /// No block was found yet. It takes no memory.
    pub(crate) fn none(alloc: Global, for_two: bool) -> FoundBlocks
        ensures mode { result.for_two ≡ for_two }
        ensures none { result.blocks.items ≡ [] }
        ensures found { AreFound result }
    {
        FoundBlocks {
            for_two,
            blocks: Vec::new(alloc),
            others: Vec::new(alloc),
            numbers: BTreeSet::new(alloc),
            shared: BTreeSet::new(alloc),
        }
    }

    /// The block that was found at this turn, if there were so many.
    pub(crate) fn at(&self, turn: u32) -> Option<ListBlock>
        ensures { result ≡ slice_get self.now.blocks.items turn }
    {
        match self.blocks.get(turn as usize) {
            Some(found) => Some(*found),
            None => None,
        }
    }

    /// Adds a block, unless it was found before.
    pub(crate) fn add(&mut self, found: ListBlock) -> Result<(), NoMemory>
        requires { AreFound self.old }
        ensures mode { self.new.for_two ≡ self.old.for_two }
        ensures adds { OnOk result
            (AddsBlock self.old.for_two found.list found.block self.old.blocks.items self.new.blocks.items) }
        ensures found { OnOk result (AreFound self.new) }
    {
        if !self.for_two {
            if self.numbers.contains(&found.neighbour_number()) {
                return Ok(());
            }
            return self.put(found, None);
        }
        let block = u64::from(found.block);
        if self.shared.contains(&block) {
            return Ok(());
        }
        let lists = self.lists_of(found.block);
        if lists.two {
            memory::insert_new(&mut self.shared, block)?;
            return Ok(());
        }
        match lists.one {
            Some(list) if list == found.list => Ok(()),
            Some(list) => self.put(found, Some(list)),
            None => self.put(found, None),
        }
    }

    /// Puts a block behind the others, which no two lists have yet. Another list may be told that has it.
    fn put(&mut self, found: ListBlock, other: Option<u16>) -> Result<(), NoMemory>
        requires found { AreFound self.old }
        requires alone { IsTrue self.old.for_two → IsShared self.old.blocks.items found.block → ⊥ }
        requires other { IsAnother self.old.for_two found.list other }
        ensures mode { self.new.for_two ≡ self.old.for_two }
        ensures adds { OnOk result
            (AddsBlock self.old.for_two found.list found.block self.old.blocks.items self.new.blocks.items) }
        ensures found { OnOk result (AreFound self.new) }
    {
        memory::insert_new(&mut self.numbers, found.neighbour_number())?;
        memory::push(&mut self.others, other)?;
        memory::push(&mut self.blocks, found)?;
        Ok(())
    }

    /// Which lists have the block: one of them, and whether there are two.
    fn lists_of(&self, block: u32) -> Holders
        requires { AreFound self.now }
        ensures one { IfSome result.one (λ list. IsAmongBlocks self.now.blocks.items list block) }
        ensures two { IsTrue result.two ↔ IsShared self.now.blocks.items block }
    {
        let from = u64::from(block) * BLOCK_STEP;
        let between = numbers_between(&self.numbers, from, from + BLOCK_STEP);
        let one = match between.first {
            Some(number) => Some((number % BLOCK_STEP) as u16),
            None => None,
        };
        Holders {
            one,
            two: between.two,
        }
    }

    /// Where each block is listed for two: another list that had the block of this turn as it was found, if one did.
    pub(crate) fn other_list(&self, turn: u32) -> Option<u16>
        requires { AreFound self.now }
        ensures { (block : ListBlock) → slice_get self.now.blocks.items turn ≡ Some block
            → IsAnother self.now.for_two block.list result }
    {
        match self.others.get(turn as usize) {
            Some(other) => *other,
            None => None,
        }
    }

    /// The blocks by rising numbers.
    pub(crate) fn in_order(&self, alloc: Global) -> Result<ListBlocks, NoMemory>
        requires { AreFound self.now }
        ensures { IfOk result (λ ordered. AreInOrder self.now.blocks.items ordered) }
    {
        let numbers = numbers_of(alloc, &self.numbers)?;
        let blocks = blocks_of_numbers(alloc, &numbers)?;
        Ok(ListBlocks { blocks, numbers })
    }
}

/// The blocks with these numbers.
fn blocks_of_numbers(alloc: Global, numbers: &[u64]) -> Result<Vec<ListBlock>, NoMemory>
    requires { AreSmall numbers.now }
    ensures { IfOk result (λ blocks. AreDecoded numbers.now blocks.items) }
{
    let mut blocks = Vec::new(alloc);
    for number in numbers {
        memory::push(&mut blocks, ListBlock::of_neighbour_number(*number))?;
    }
    Ok(blocks)
}
