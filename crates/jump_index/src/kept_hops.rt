//! The pointers that searches went along.
ghost use Rattle.std.specs.Prelude.{◌≡◌, ◌<◌, IsTrue};
ghost use Rattle.cell_types.specs.Image.{Image};
ghost use Rattle.jump_index.specs.Keeping.{AreHopsKept, GoesOn, IsHopKept, Reaches};

use crate::bounds::Bounds;
use jump_block::Span;

/// How many levels pointers have.
const LEVELS: usize = 8;

/// A pointer that a search went along: it stands in a full block, and leads to another.
#[derive(Clone, Copy)]
pub(crate) struct KeptHop {
    /// The number of the full block's first cell.
    pub(crate) block: u32,
    /// Its greatest key.
    pub(crate) greatest: u32,
    /// The keys that the pointer is for.
    pub(crate) span: Span,
    /// The number of the first cell of the block that it leads to.
    pub(crate) target: u32,
}

/// A span of a full block whose pointer a search asks for.
#[derive(Clone, Copy)]
pub(crate) struct Tried {
    /// The number of the full block's first cell.
    pub(crate) block: u32,
    /// Its greatest key.
    pub(crate) greatest: u32,
    /// The keys that the pointer is for.
    pub(crate) span: Span,
}

/// The block that hops lead to.
#[derive(Clone, Copy)]
pub(crate) struct Reached {
    pub(crate) block: u32,
    /// The least key for which they do.
    pub(crate) low: u64,
    /// The key behind the greatest.
    pub(crate) bound: u64,
    /// The level of the last hop, and 8 where there is none.
    pub(crate) level: u8,
}

/// Of each level the hop that was taken last. They may be kept over one device, since pointers and full blocks stay.
#[derive(Clone, Copy)]
pub(crate) struct KeptHops {
    held: [Option<KeptHop>; LEVELS],
}

impl KeptHops {
    /// No hop is kept.
    pub(crate) fn new() -> KeptHops
        ensures { (image : Image) → AreHopsKept image result }
    {
        KeptHops {
            held: [None; LEVELS],
        }
    }

    /// Keeps a hop, in place of the one of its level.
    pub(crate) fn keep(&mut self, hop: KeptHop)
        requires { hop.span.level < 8 }
        ensures { (image : Image) → AreHopsKept image self.old → IsHopKept image hop → AreHopsKept image self.new }
    {
        self.held[usize::from(hop.span.level)] = Some(hop);
    }

    /// The block that hops lead to from the first block of a list, for a key.
    pub(crate) fn reached(&self, head: u32, x: u32, bounds: Bounds) -> Reached
        ensures { Reaches bounds head x self.now result }
    {
        let mut reached = Reached {
            block: head,
            low: 0,
            bound: 1 << 32,
            level: 8,
        };
        // The level falls at every hop.
        for turn in 0u8..8 {
            let level = 7 - turn;
            let kept = self.held[usize::from(level)];
            if let Some(hop) = kept {
                if hop.goes_on(&reached, x, bounds) {
                    reached = Reached {
                        block: hop.target,
                        low: hop.span.low,
                        bound: hop.span.high.min(reached.bound),
                        level,
                    };
                }
            }
        }
        reached
    }
}

impl KeptHop {
    /// Whether the hop goes on from the block that was reached, for a key.
    fn goes_on(&self, reached: &Reached, x: u32, bounds: Bounds) -> bool
        ensures { IsTrue result → GoesOn bounds x reached.now self.now }
    {
        let key = u64::from(x);
        self.block == reached.block
            && self.span.low <= key
            && key < self.span.high
            && reached.low <= u64::from(self.greatest)
            && bounds.pool <= self.target
            && u64::from(self.target) + 256 <= u64::from(bounds.edge)
    }
}
