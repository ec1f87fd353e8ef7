//! Places of keys in a block.
ghost use Rattle.std.specs.Prelude.{◌<◌, ◌≤◌, ◌+◌, ◌^◌};
ghost use Rattle.log_audit.specs.Kept.{image_of_kept};
ghost use Rattle.list_audit.specs.Trails.{IsAllFront, IsPlaceOfKey};
ghost use Rattle.volume_meaning.specs.declared.blocks.TheConstants.{BLOCK_CELLS};

use crate::held_posting::posting_at;
use log_audit::KeptCells;
use volume_meaning::ENTRY_PLACES;

/// The last entry place of a block.
pub(crate) const LAST_ENTRY: u32 = 127;

/// The first entry place of a block without a lower key, or the number of its entry places. The guess is looked at first;
/// then bisection finds it, since the entries of a block stand without a gap and by rising keys.
pub(crate) fn place_of(kept: &KeptCells, block: u32, key: u32, guess: u32) -> u32
    requires room { block + BLOCK_CELLS ≤ 2 ^ 31 }
    requires front { IsAllFront (image_of_kept kept.now) block }
    ensures { IsPlaceOfKey (image_of_kept kept.now) block key result }
{
    let mut low = 0;
    let mut high = u32::from(ENTRY_PLACES);
    let mut next = guess;
    while low < high {
        let middle = place_between(low, high, next);
        // Whoever comes to a block anew mostly seeks its first entry.
        next = 0;
        let Some(posting) = posting_at(kept, block + middle) else {
            high = middle;
            continue;
        };
        if posting.key == key {
            return middle;
        }
        if posting.key < key {
            low = middle + 1;
        } else {
            high = middle;
        }
    }
    low
}

/// The guess, where it lies between the two, or else the place in the middle.
fn place_between(low: u32, high: u32, guess: u32) -> u32
    requires { low < high }
    ensures from { low ≤ result }
    ensures below { result < high }
{
    if low <= guess && guess < high {
        return guess;
    }
    low + (high - low) / 2
}
