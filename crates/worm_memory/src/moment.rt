//! Moments of a command, and what may be planned for them.
ghost use Rattle.std.specs.Prelude.{◌≡◌, IsTrue, ◌↔◌};
ghost use Rattle.worm_memory.specs.Plans.{names, is_past};

use cell_types::Cell;

/// A moment of a command: one of its steps or of its device calls, numbered from 1. Each call has its number, also
/// where it fails. A moment of number 0 is reached as the command begins, and names no call.
#[derive(Clone, Copy, Debug, PartialEq, Eq)]
pub enum Moment {
    /// The step of this number: a write or a sync.
    Step(u32),
    /// The device call of this number: a read, a write or a sync.
    Call(u32),
}

/// A foreign write, before the call that a moment names.
#[derive(Clone, Copy)]
pub(crate) struct Timed {
    pub(crate) before: Moment,
    pub(crate) at: u32,
    pub(crate) value: Cell,
}

impl Moment {
    /// Whether it names the call that has come, which is a step or not, and with which there are so many of each.
    pub(crate) fn names(&self, is_step: bool, steps: u64, calls: u64) -> bool
        ensures { result ≡ names self.now is_step steps calls }
    {
        match *self {
            Moment::Step(number) => is_step && steps == u64::from(number),
            Moment::Call(number) => calls == u64::from(number),
        }
    }

    /// Whether so many steps or calls have been made.
    pub(crate) fn is_past(&self, steps: u64, calls: u64) -> bool
        ensures { result ≡ is_past self.now steps calls }
    {
        match *self {
            Moment::Step(number) => u64::from(number) <= steps,
            Moment::Call(number) => u64::from(number) <= calls,
        }
    }
}
