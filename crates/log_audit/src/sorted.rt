//! Numbers in order, and places among them, found by bisection.
ghost use Rattle.std.specs.Prelude.{◌≡◌, ◌↔◌, ℕ, slice_get, Contains, IfNone, IfOk, IfSome, IsTrue, Some, true};
ghost use Rattle.std.specs.BTreeSet.{contains};
ghost use Rattle.std.specs.List.Sorted.{IsStrictlyIncreasing};
ghost use Rattle.std.specs.Ordering.{nat_cmp};
ghost use Rattle.log_audit.specs.Between.{AreLower, HasBetween};

use cell_types::{NoMemory, memory};
use std::alloc::Global;
use std::collections::BTreeSet;

/// Sorts the numbers, and keeps each of them once.
pub fn sort_once(numbers: &mut Vec<u64>)
    ensures rises { IsStrictlyIncreasing numbers.new.items }
    ensures keeps { (x : ℕ) → Contains numbers.old.items x → Contains numbers.new.items x }
    ensures adds_none { (x : ℕ) → Contains numbers.new.items x → Contains numbers.old.items x }
{
    numbers.sort_unstable();
    numbers.dedup();
}

/// The numbers of a set, as they rise.
pub fn numbers_of(alloc: Global, set: &BTreeSet<u64>) -> Result<Vec<u64>, NoMemory>
    ensures rises { IfOk result (λ numbers. IsStrictlyIncreasing numbers.items) }
    ensures same { IfOk result
        (λ numbers. (x : ℕ) → Contains numbers.items x ↔ (contains nat_cmp set.now x ≡ true)) }
{
    let mut numbers = Vec::new(alloc);
    for number in set {
        memory::push(&mut numbers, *number)?;
    }
    Ok(numbers)
}

/// The place of a number among these, which rise, if it is there.
pub fn place_of(numbers: &[u64], number: u64) -> Option<usize>
    requires { IsStrictlyIncreasing numbers.now }
    ensures some { IfSome result (λ place. slice_get numbers.now place ≡ Some number) }
    ensures none { IfNone result (Contains numbers.now number → ⊥) }
{
    numbers.binary_search(&number).ok()
}

/// How many of these numbers, which rise, are lower than this one.
pub fn lower_than(numbers: &[u64], number: u64) -> usize
    requires { IsStrictlyIncreasing numbers.now }
    ensures { AreLower numbers.now number result }
{
    numbers.partition_point(|other| *other < number)
}

/// Whether one of these numbers, which rise, lies from `low` on and below `high`.
pub fn has_between(numbers: &[u64], low: u64, high: u64) -> bool
    requires { IsStrictlyIncreasing numbers.now }
    ensures { IsTrue result ↔ HasBetween numbers.now low high }
{
    let place = lower_than(numbers, low);
    place < numbers.len() && numbers[place] < high
}
