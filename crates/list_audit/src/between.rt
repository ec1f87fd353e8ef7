//! The numbers of a set between two others.
ghost use Rattle.std.specs.Prelude.{◌≡◌, ◌<◌, ◌≤◌, ◌↔◌, ℕ, IfNone, IfSome, IsTrue, true};
ghost use Rattle.std.specs.BTreeSet.{contains};
ghost use Rattle.std.specs.Ordering.{nat_cmp};
ghost use Rattle.list_audit.specs.Numbers.{HasTwoBetween};

use std::collections::BTreeSet;

/// The least number of the set from one up to another.
pub(crate) fn first_between(numbers: &BTreeSet<u64>, from: u64, behind: u64) -> Option<u64>
    requires { from ≤ behind }
    ensures some { IfSome result (λ number. (from ≤ number) × (number < behind)
        × (contains nat_cmp numbers.now number ≡ true)) }
    ensures none { IfNone result ((number : ℕ) → from ≤ number → number < behind
        → contains nat_cmp numbers.now number ≡ true → ⊥) }
{
    let number = numbers.range(from..behind).next()?;
    Some(*number)
}

/// The greatest one.
pub(crate) fn last_between(numbers: &BTreeSet<u64>, from: u64, behind: u64) -> Option<u64>
    requires { from ≤ behind }
    ensures { IfSome result (λ number. (from ≤ number) × (number < behind)
        × (contains nat_cmp numbers.now number ≡ true)) }
{
    let number = numbers.range(from..behind).next_back()?;
    Some(*number)
}

/// Numbers of a set between two others: one of them, if there is one, and whether there are two.
#[derive(Clone, Copy)]
pub(crate) struct Between {
    pub(crate) first: Option<u64>,
    pub(crate) two: bool,
}

/// What the set has from one number up to another.
pub(crate) fn numbers_between(numbers: &BTreeSet<u64>, from: u64, behind: u64) -> Between
    requires { from ≤ behind }
    ensures first { IfSome result.first (λ number. (from ≤ number) × (number < behind)
        × (contains nat_cmp numbers.now number ≡ true)) }
    ensures two { IsTrue result.two ↔ HasTwoBetween numbers.now from behind }
{
    let mut between = numbers.range(from..behind);
    let Some(first) = between.next() else {
        return Between {
            first: None,
            two: false,
        };
    };
    let first = Some(*first);
    let two = between.next().is_some();
    Between { first, two }
}
