//! The zigzag join: the slots that several lists have in common, one after another.
//!
//! The lists are asked in turn for their next slot at or past the one at hand, until so many lists in turn as there are
//! have come to one slot. Only then each is asked whether it has that slot, the first one last; where all have it, it is
//! the answer:
//!
//!     list 0: 1 4 7 9        next from 0: 1        one list has come to 1
//!     list 1: 2 4 9          next from 1: 2        the slot is another: one list has come to 2
//!     list 0                 next from 2: 4        one to 4
//!     list 1                 next from 4: 4        two of two; has 1 slot 4? has 0? both: the answer is 4
//!
//! A list may hold more than it should: whoever may write blank cells adds postings, and what a list answers then need
//! not be a slot that all have. So a list does not tell what it has, but which slots it **must not pass**, and for
//! which it **vouches**. The join passes no slot that no list may pass, and each list vouches for its answer, which is
//! live. Where `land` lands is never taken for such a slot: `has` decides, and where it says no, the join goes on by
//! one. A list may tell as it lands that it vouches for the slot, which is live then; where all of them do, none is
//! asked whether it has it. Else the first one is asked last, and confirms that the slot is live (`confirm`): so a slot
//! that a list came to for the sake of other lists' words need not be looked at. What the lists learn of a slot as they
//! find it to be live they may keep: so they know it of the answer (`knows`).
//!
//! **What it costs.** Take any one list, and say that it has m slots from where the join begins up to the answer, or to
//! the end where there is none. Then the join asks at most `count * (m + 1)` times for a next slot, and at most
//! `count * m` times whether a list has one, by `has` or `confirm`, unless somebody else writes meanwhile. Asking for
//! the latter as soon as a list comes to a slot would break that: with list 0: 1 5 and list 1: 5 it is asked of 1 too,
//! three times in all, and list 1 has but one slot. Joins one after another, each from behind the answer before, gather
//! all common slots: they ask at most `count * (2 * m + 1)` times for a next slot and `count * m` times whether a list
//! has one, where m are all slots of any one list. What an ask may read at most the lists say themselves, a number for
//! each kind of ask: and the asks of a join pay for all that it reads.
//!
//! The lists are read through a view, and a join only reads it. Stands on `cell_types` and on the views of
//! `worm_device`. Begin with `lists.rt`; `specs/Joins.antt` says what an answer means, `specs/Counts.antt` what it
//! costs, and `specs/Gathering.antt` what all common slots are.
#![tactic(auto)]

mod join;
mod lists;

pub use join::next_common;
pub use lists::{Landing, Lists};
