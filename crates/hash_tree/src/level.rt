//! A place on the path of a digest.
use cell_types::{Cell, Geometry};

/// A child cell that leads to a node.
#[derive(Clone, Copy, Debug, PartialEq, Eq)]
pub struct ChildCell {
    /// The number of the child cell.
    pub cell: u32,
    /// What stands there.
    pub found: Cell,
    /// The number of the node's first cell.
    pub target: u32,
}

/// A node on the path of a digest, and how far it is done with.
#[derive(Clone, Copy, Debug, PartialEq, Eq)]
pub struct Level {
    pub digest: [u8; 32],
    /// How many nodes of the path are above this one, 0 to 63.
    pub number: u8,
    /// Whether the node's bucket on the path was answered as a candidate.
    pub answered: bool,
    /// The child cell that led to the node, `None` at the root.
    pub led_by: Option<ChildCell>,
}

impl Level {
    ghost use Rattle.std.specs.Prelude.{◌≡◌};
    ghost use Rattle.hash_tree.specs.Levels.{first_level, node_of};

    /// The root, where each path begins.
    pub fn start(digest: [u8; 32]) -> Level
        ensures { result ≡ first_level digest }
    {
        Level {
            digest,
            number: 0,
            answered: false,
            led_by: None,
        }
    }

    /// The number of the node's first cell.
    pub fn node(&self, geometry: &Geometry) -> u32
        ensures { result ≡ node_of geometry.now self.now }
    {
        match &self.led_by {
            Some(child) => child.target,
            None => geometry.root_at(),
        }
    }
}
