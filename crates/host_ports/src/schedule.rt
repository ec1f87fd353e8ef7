//! Which call of a port in memory is to fail, and how many have failed.
ghost use Rattle.std.specs.Prelude.{◌≡◌, ◌+◌, ◌↔◌, None, Some, IsTrue};
ghost use Rattle.worm_device.specs.Counts.{next_count};
ghost use Rattle.host_ports.specs.declared.schedule.Schedule.{Schedule};

use worm_device::Failed;

/// The calls of a port in memory so far, and the one that is to fail.
#[derive(Drop)]
pub(crate) struct Schedule {
    /// How many calls there were. It stands still at its end.
    pub(crate) calls: u64,
    /// The number of the call that is to fail, from 1.
    pub(crate) fails: Option<u32>,
    /// How many calls have failed. It stands still at its end.
    pub(crate) faults: u64,
}

impl Schedule {
    /// No call was made, and none is to fail.
    pub(crate) fn new() -> Schedule
        ensures { result ≡ record { calls = 0; fails = None; faults = 0 } }
    {
        Schedule {
            calls: 0,
            fails: None,
            faults: 0,
        }
    }

    /// Counts a call, and answers whether it is to fail.
    pub(crate) fn begin(&mut self) -> bool
        ensures counted { self.new ≡ record self.old { calls = next_count self.old.calls } }
        ensures fails { IsTrue result ↔ (self.old.fails ≡ Some (self.old.calls + 1)) }
    {
        self.calls = self.calls.saturating_add(1);
        match self.fails {
            Some(call) => u64::from(call) == self.calls,
            None => false,
        }
    }

    /// Counts a failure.
    pub(crate) fn fail(&mut self) -> Failed
        ensures { self.new ≡ record self.old { faults = next_count self.old.faults } }
    {
        self.faults = self.faults.saturating_add(1);
        Failed
    }
}
