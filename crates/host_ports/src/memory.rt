//! A source and a sink in memory, which tell everything, and fail where they are asked to.
ghost use Rattle.std.specs.Prelude.{◌≡◌, ◌+◌, ◌<◌, ◌≤◌, ◌⊎◌, ◌↔◌, ◌++◌, [], min, length, drop, None, Some, IfOk, IsErr, IsOk, OnErr, OnOk};
ghost use Rattle.worm_device.specs.Counts.{next_count};
ghost use Rattle.host_ports.specs.Memories.{source_of, sink_of};
ghost use Rattle.host_ports.specs.Sinks.{PutsIntoSink};
ghost use Rattle.host_ports.specs.Sources.{Takes};

use crate::schedule::Schedule;
use crate::{Failed, Sink, Source};
use cell_types::{NoMemory, memory};
use std::alloc::Global;
use std::marker::Model;

/// Bytes in memory, as a source. A call gives as many as there are and fit.
#[derive(Drop)]
pub struct MemorySource {
    bytes: Vec<u8>,
    at: usize,
    schedule: Schedule,
}

impl Model for MemorySource {
    ghost use Rattle.std.specs.Prelude.{◌≤◌, length, drop};
    ghost use Rattle.host_ports.specs.Memories.{SourceMemory};

    ghost Value = { SourceMemory };

    ghost view = { λ s. record {
      left = drop s.at s.bytes.items;
      calls = s.schedule.calls;
      fails = s.schedule.fails;
      faults = s.schedule.faults;
    } };

    ghost invariant = { λ s. s.at ≤ length s.bytes.items };
}

impl MemorySource {
    /// These bytes are left. No call is to fail.
    pub fn new(bytes: Vec<u8>) -> MemorySource
        ensures { result ≡ record { left = bytes.items; calls = 0; fails = None; faults = 0 } }
    {
        MemorySource {
            bytes,
            at: 0,
            schedule: Schedule::new(),
        }
    }

    /// Lets the call of this number fail, from 1, and no other. Calls count over the source's whole life.
    pub fn fail_at(&mut self, call: u32)
        ensures { self.new ≡ record self.old { fails = Some call } }
    {
        self.schedule.fails = Some(call);
    }
}

impl Source for MemorySource {
    ghost state = { source_of };

    fn take(&mut self, into: &mut [u8]) -> Result<usize, Failed>
        ensures takes { Takes into.new (source_of self.old) (source_of self.new) result }
        // It fails exactly where it is to, and else gives as many bytes as there are and fit.
        ensures fails { IsErr result ↔ (self.old.fails ≡ Some (self.old.calls + 1)) }
        ensures gives { IfOk result (λ n. n ≡ min (length into.old) (length self.old.left)) }
        ensures after { IfOk result (λ n. self.new ≡ record self.old {
          left = drop n self.old.left;
          calls = next_count self.old.calls;
        }) }
        ensures failed { OnErr result (self.new ≡ record self.old {
          calls = next_count self.old.calls;
          faults = next_count self.old.faults;
        }) }
    {
        if self.schedule.begin() {
            return Err(self.schedule.fail());
        }
        let count = into.len().min(self.bytes.len() - self.at);
        into[..count].copy_from_slice(&self.bytes[self.at..self.at + count]);
        self.at += count;
        Ok(count)
    }
}

/// A sink in memory. It holds what it got, as far as room was reserved.
#[derive(Drop)]
pub struct MemorySink {
    bytes: Vec<u8>,
    schedule: Schedule,
}

impl Model for MemorySink {
    ghost use Rattle.std.specs.Prelude.{◌-◌, vec_len, vec_capacity};
    ghost use Rattle.host_ports.specs.Memories.{SinkMemory};

    ghost Value = { SinkMemory };

    ghost view = { λ s. record {
      held = s.bytes.items;
      room = vec_capacity s.bytes - vec_len s.bytes;
      calls = s.schedule.calls;
      fails = s.schedule.fails;
      faults = s.schedule.faults;
    } };
}

impl MemorySink {
    /// Holds nothing, and has room for nothing. Takes no memory. No call is to fail.
    pub fn new(alloc: Global) -> MemorySink
        ensures { result ≡ record { held = []; room = 0; calls = 0; fails = None; faults = 0 } }
    {
        MemorySink {
            bytes: Vec::new(alloc),
            schedule: Schedule::new(),
        }
    }

    /// What it holds.
    pub fn bytes(&self) -> &[u8]
        ensures { result.now ≡ self.now.held }
    {
        self.bytes.as_slice()
    }

    /// Lets the call of this number fail, from 1, and no other. Calls count over the sink's whole life.
    pub fn fail_at(&mut self, call: u32)
        ensures { self.new ≡ record self.old { fails = Some call } }
    {
        self.schedule.fails = Some(call);
    }

    /// Takes memory until so many further bytes can be put, and maybe more. Nothing changes otherwise.
    pub fn reserve(&mut self, bytes: u32) -> Result<(), NoMemory>
        ensures room { OnOk result (bytes ≤ self.new.room) }
        ensures enough { bytes ≤ self.old.room → IsOk result }
        ensures more { self.old.room ≤ self.new.room }
        ensures only { self.new ≡ record self.old { room = self.new.room } }
        ensures unchanged { OnErr result (self.new ≡ self.old) }
    {
        memory::reserve(&mut self.bytes, bytes as usize)
    }
}

impl Sink for MemorySink {
    ghost state = { sink_of };

    fn put(&mut self, piece: &[u8]) -> Result<usize, Failed>
        ensures puts { PutsIntoSink piece.now (sink_of self.old) (sink_of self.new) result }
        // It fails exactly where it is to or where room is lacking, and else gets the whole piece.
        ensures fails { IsErr result
            ↔ ((self.old.fails ≡ Some (self.old.calls + 1)) ⊎ (self.old.room < length piece.now)) }
        ensures all { IfOk result (λ n. n ≡ length piece.now) }
        ensures after { OnOk result (self.new ≡ record self.old {
          held = self.old.held ++ piece.now;
          room = self.new.room;
          calls = next_count self.old.calls;
        }) }
        ensures room { self.old.room ≤ self.new.room + length piece.now }
        ensures failed { OnErr result (self.new ≡ record self.old {
          calls = next_count self.old.calls;
          faults = next_count self.old.faults;
        }) }
    {
        let fails = self.schedule.begin();
        if fails || self.bytes.capacity() - self.bytes.len() < piece.len() {
            return Err(self.schedule.fail());
        }
        self.bytes.extend_from_slice(piece).unwrap();
        Ok(piece.len())
    }
}
