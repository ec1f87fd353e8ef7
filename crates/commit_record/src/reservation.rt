//! The cells that a slot reserves.
ghost use Rattle.std.specs.Prelude.{◌≡◌, ◌<◌, ◌+◌, ◌^◌};
ghost use Rattle.commit_record.specs.Reservations.{has_ended, reservation_of};

use crate::slot::SlotState;

/// Cells of the pool: the first, and how many they are.
#[derive(Clone, Copy)]
pub struct Reservation {
    pub start: u32,
    pub length: u32,
}

impl Reservation {
    /// The cell behind them.
    pub fn end(&self) -> u32
        requires { self.now.start + self.now.length < 2 ^ 32 }
        ensures { result ≡ self.now.start + self.now.length }
    {
        self.start + self.length
    }
}

impl SlotState {
    /// The cells that the slot reserves, and `None` where it is unused.
    pub fn reservation(&self) -> Option<Reservation>
        ensures { result ≡ reservation_of self.now }
    {
        match *self {
            SlotState::Unused => None,
            SlotState::Reserved { start, length }
            | SlotState::Abandoned { start, length }
            | SlotState::Committed { start, length, .. }
            | SlotState::Done { start, length, .. } => Some(Reservation { start, length }),
        }
    }

    /// Whether the slot is abandoned or done.
    pub fn has_ended(&self) -> bool
        ensures { result ≡ has_ended self.now }
    {
        matches!(self, SlotState::Abandoned { .. } | SlotState::Done { .. })
    }
}
