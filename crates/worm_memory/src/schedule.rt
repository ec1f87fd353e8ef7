//! What is planned for the present command of a device in memory, and how far the command has come.
ghost use Rattle.std.specs.Prelude.{◌≡◌, ◌<◌, ◌^◌, ◌++◌, ◌∷◌, [], if◌then◌else◌, slice_get, is_ok, Some, IfOk};
ghost use Rattle.std.specs.List.{list_any};
ghost use Rattle.worm_device.specs.Counts.{next_count};
ghost use Rattle.worm_memory.specs.Plans.{no_plan, plan_of, names, next_step, is_stopped, is_refused};

use crate::CallNumbers;
use crate::moment::{Moment, Timed};
use std::alloc::Global;

/// The numbers of the present command's calls, and what is planned for it.
#[derive(Drop)]
pub(crate) struct Schedule {
    /// How many steps there were. It stands still at its end.
    pub(crate) steps: u64,
    /// How many device calls there were. It stands still at its end.
    pub(crate) calls: u64,
    /// The moments whose calls fail.
    pub(crate) fails: Vec<Moment>,
    /// The moment after which each call fails.
    pub(crate) stop: Option<Moment>,
    /// What others write before which calls.
    pub(crate) foreign: Vec<Timed>,
}

impl Schedule {
    /// No call has been made, and nothing is planned.
    pub(crate) fn new(alloc: Global) -> Schedule
        ensures plan { plan_of result ≡ no_plan }
        ensures steps { result.steps ≡ 0 }
        ensures calls { result.calls ≡ 0 }
    {
        Schedule {
            steps: 0,
            calls: 0,
            fails: Vec::new(alloc),
            stop: None,
            foreign: Vec::new(alloc),
        }
    }

    /// Begins a command anew.
    pub(crate) fn begin(&mut self)
        ensures plan { plan_of self.new ≡ no_plan }
        ensures steps { self.new.steps ≡ 0 }
        ensures calls { self.new.calls ≡ 0 }
    {
        self.steps = 0;
        self.calls = 0;
        self.fails.clear();
        self.stop = None;
        self.foreign.clear();
    }

    /// The numbers of the call that has come.
    pub(crate) fn numbers(&self) -> CallNumbers
        ensures { result ≡ record { steps = self.now.steps; calls = self.now.calls } }
    {
        CallNumbers {
            steps: self.steps,
            calls: self.calls,
        }
    }

    /// Counts a call, and answers whether the plan makes it fail.
    pub(crate) fn count_call(&mut self, is_step: bool) -> bool
        ensures refused { result ≡ is_refused is_step (plan_of self.old) self.old.steps self.old.calls }
        ensures plan { plan_of self.new ≡ plan_of self.old }
        ensures steps { self.new.steps ≡ next_step is_step self.old.steps }
        ensures calls { self.new.calls ≡ next_count self.old.calls }
        ensures fits { self.old.calls < 2 ^ 64 }
    {
        // The stop is looked at before the call is counted: the call of its number is still made.
        let is_stopped = self.is_stopped();
        if is_step {
            self.steps = self.steps.saturating_add(1);
        }
        self.calls = self.calls.saturating_add(1);
        let is_named = self.is_to_fail(is_step);
        is_stopped || is_named
    }

    /// Whether the stop has been reached.
    fn is_stopped(&self) -> bool
        ensures { result ≡ is_stopped self.now.stop self.now.steps self.now.calls }
    {
        match self.stop {
            Some(moment) => moment.is_past(self.steps, self.calls),
            None => false,
        }
    }

    /// Whether a moment that fails names the call that has come.
    fn is_to_fail(&self, is_step: bool) -> bool
        ensures { result
            ≡ list_any (λ moment. names moment is_step self.now.steps self.now.calls) self.now.fails.items }
    {
        let (steps, calls) = (self.steps, self.calls);
        self.fails
            .iter()
            .any(|moment| moment.names(is_step, steps, calls))
    }

    /// The foreign write of this place in the order in which they were planned.
    pub(crate) fn planned(&self, place: usize) -> Option<Timed>
        ensures { result ≡ slice_get (plan_of self.now).foreign place }
    {
        self.foreign.get(place).copied()
    }
}
