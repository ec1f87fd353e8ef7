//! What of a volume lists reach.
use cell_types::Volume;
use jump_index::Bounds;

/// The volume whose lists are asked, and how far it is filled: the slots from the horizon on hold nothing yet, and no
/// block lies outside the bounds.
#[derive(Clone, Copy)]
pub struct Reach {
    pub volume: Volume,
    /// The first slot that is not taken.
    pub horizon: u32,
    /// From the pool's start up to where the reservations of the slots below the horizon end.
    pub bounds: Bounds,
}
