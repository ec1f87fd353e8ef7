//! Laws of where an index leads: posting blocks and their trails, hash nodes and their paths, and the documents that
//! are kept. Each is a function that does nothing and whose contract is the law.
//!
//! **A list** is a tree of blocks of 256 cells: 128 postings with rising keys, and behind them 120 pointers. The
//! block's greatest key l and the key k that is sought tell which pointer leads on: the distance k - l, to the base 16,
//! has a first digit (1 to 15) and a level (how many digits are behind it).
//!
//!     block at 804, greatest key 32512
//!       key 32768: distance 256 = 1 * 16^2, pointer (2, 1) in cell 962, for the keys 32768 up to 33023
//!       key 33040: distance 528 = 2 * 16^2 + 1 * 16, pointer (2, 2) in cell 963, for the keys 33024 up to 33279
//!
//! A posting has a **trail** from the list's first block where it stands in a front, the rows of rising keys from place
//! 0 on, or behind pointers that lead to it so. Blocks that are added later lie behind other pointers or in blank
//! cells, so
//! **a trail stays a trail**, whatever is written.
//!
//! **The tree** of identifiers has nodes of 16 buckets and 16 child cells. Level v goes by half byte v of the SHA-256
//! of the identifier; an entry goes to the first blank bucket on its path.
//!
//!     `b`, digest 3e23..:  bucket 3 of the root
//!     `e`, digest 3f79..:  bucket 3 of the root is written, so bucket 15 of the node that child cell 3 leads to
//!
//! A slot has a **hash trail** where its bucket is reached past buckets that can't be mistaken for it.
//!
//! A document is **kept** in an image where it stands, each of its postings has a trail, and it has a hash trail. Every
//! image that extends this one keeps it: that is the law on which the whole program rests, `kept_holds_on`.
ghost use Rattle.volume_meaning.specs.BlockLaws.{FrontsRise, SpansAreApart, SpansCover, TrailHoldsOn, TrailsAreOne};
ghost use Rattle.volume_meaning.specs.HashLaws.{HashTrailsAreOne, PathsHoldOn};
ghost use Rattle.volume_meaning.specs.Keeping.{KeptAreApart, KeptHoldsOn};
ghost use Rattle.volume_meaning.specs.Postings.{TagsAreOne};

/// A trail stays a trail.
#[tactic(auto, using(crate::proofs::Trails::trail_on))]
pub fn trail_holds_on()
    ensures { TrailHoldsOn }
{}

/// A key lies in one span.
#[tactic(auto, using(crate::proofs::Spans::apart))]
pub fn spans_are_apart()
    ensures { SpansAreApart }
{}

/// Each greater key lies in a span.
#[tactic(auto, using(crate::proofs::Spans::cover))]
pub fn spans_cover()
    ensures { SpansCover }
{}

/// A front holds one posting a place, and its keys rise.
pub fn fronts_rise()
    ensures { FrontsRise }
{}

/// One posting of a key has a trail from a block.
pub fn trails_are_one()
    ensures { TrailsAreOne }
{}

/// What is kept is kept in each extending image.
pub fn kept_holds_on()
    ensures { KeptHoldsOn }
{}

/// Of the kept documents one has an identifier.
pub fn kept_are_apart()
    ensures { KeptAreApart }
{}

/// Of the slots that stand with an identifier one has a hash trail.
pub fn hash_trails_are_one()
    ensures { HashTrailsAreOne }
{}

/// A passed bucket is passed in each extending image.
pub fn paths_hold_on()
    ensures { PathsHoldOn }
{}

/// A body has one list of tags in a list.
pub fn tags_are_one()
    ensures { TagsAreOne }
{}
