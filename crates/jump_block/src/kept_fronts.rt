//! The fronts that a row of searches keeps.
ghost use Rattle.std.specs.Prelude.{◌≡◌, ◌<◌, ◌≤◌, ℕ};
ghost use Rattle.cell_types.specs.Image.{Image};
ghost use Rattle.volume_meaning.specs.declared.blocks.TheConstants.{ENTRY_PLACES};
ghost use Rattle.jump_block.specs.Keeping.{AreFrontsKept, KeepsPlaces};
ghost use Rattle.jump_block.specs.Known.{IsKnown};

use crate::KnownFront;
use volume_meaning::ENTRY_PLACES;

/// How many fronts are kept: one for each block on a walk through eight levels.
pub const KEPT_FRONTS: usize = 9;

/// Fronts of some blocks, as far as they are known. They may be kept from one search to the next, over one device,
/// since what is known of an image is known of each that extends it.
#[derive(Clone, Copy)]
pub struct KeptFronts {
    held: [KnownFront; 9],
}

impl KeptFronts {
    /// No front is known.
    pub fn new() -> KeptFronts
        ensures { (image : Image) → AreFrontsKept image result }
    {
        let unknown = KnownFront {
            block: 0,
            count: 0,
            greatest: 0,
        };
        KeptFronts { held: [unknown; 9] }
    }

    /// What is known of a block's front: the longest of those that are kept.
    pub fn of_block(&self, block: u32) -> KnownFront
        ensures block { result.block ≡ block }
        ensures places { result.count ≤ ENTRY_PLACES }
        ensures longest { (count : ℕ) → KeepsPlaces self.now block count → count ≤ result.count }
        ensures known { (image : Image) → AreFrontsKept image self.now → IsKnown image result }
    {
        let mut known = KnownFront {
            block,
            count: 0,
            greatest: 0,
        };
        for front in &self.held {
            if front.block == block && front.count > known.count && front.count <= ENTRY_PLACES {
                known = *front;
            }
        }
        known
    }

    /// What is kept at this number of a block's front: nothing, if it is of another block.
    pub fn at(&self, at: usize, block: u32) -> KnownFront
        requires { at < KEPT_FRONTS }
        ensures block { result.block ≡ block }
        ensures places { result.count ≤ ENTRY_PLACES }
        ensures known { (image : Image) → AreFrontsKept image self.now → IsKnown image result }
    {
        let front = self.held[at];
        if front.block == block && front.count <= ENTRY_PLACES {
            return front;
        }
        KnownFront {
            block,
            count: 0,
            greatest: 0,
        }
    }

    /// Keeps what is known of a front, in place of the one that was kept at this number.
    pub fn keep(&mut self, at: usize, front: KnownFront)
        requires { at < KEPT_FRONTS }
        ensures kept { (image : Image) → AreFrontsKept image self.old → IsKnown image front → AreFrontsKept image self.new }
        ensures added { front.count ≤ ENTRY_PLACES → KeepsPlaces self.new front.block front.count }
    {
        self.held[at] = front;
    }
}
