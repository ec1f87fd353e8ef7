//! Sources and sinks in memory.
ghost use Rattle.std.specs.Prelude.{◌≡◌, ◌+◌, ◌<◌, ◌≤◌, ◌⊎◌, ◌↔◌, ◌++◌, min, length, drop, Some, IfOk, IsErr, OnErr, OnOk};
ghost use Rattle.worm_device.specs.Counts.{next_count};
ghost use Rattle.host_ports.specs.Memories.{source_of, sink_of};
ghost use Rattle.host_ports.specs.Sinks.{Gets, PutsIntoSink, PutsPart};
ghost use Rattle.host_ports.specs.Sources.{Takes};

use host_ports::{MemorySink, MemorySource, Sink, Source, put_all};
use worm_device::Failed;

/// `Source::take` of a source in memory.
pub fn take_again(source: &mut MemorySource, into: &mut [u8]) -> Result<usize, Failed>
    ensures takes { Takes into.new (source_of source.old) (source_of source.new) result }
    ensures fails { IsErr result ↔ (source.old.fails ≡ Some (source.old.calls + 1)) }
    ensures gives { IfOk result (λ n. n ≡ min (length into.old) (length source.old.left)) }
    ensures after { IfOk result (λ n. source.new ≡ record source.old {
      left = drop n source.old.left;
      calls = next_count source.old.calls;
    }) }
    ensures failed { OnErr result (source.new ≡ record source.old {
      calls = next_count source.old.calls;
      faults = next_count source.old.faults;
    }) }
{
    source.take(into)
}

/// `Sink::put` of a sink in memory.
pub fn put_again(sink: &mut MemorySink, piece: &[u8]) -> Result<usize, Failed>
    ensures puts { PutsIntoSink piece.now (sink_of sink.old) (sink_of sink.new) result }
    ensures fails { IsErr result
        ↔ ((sink.old.fails ≡ Some (sink.old.calls + 1)) ⊎ (sink.old.room < length piece.now)) }
    ensures all { IfOk result (λ n. n ≡ length piece.now) }
    ensures after { OnOk result (sink.new ≡ record sink.old {
      held = sink.old.held ++ piece.now;
      room = sink.new.room;
      calls = next_count sink.old.calls;
    }) }
    ensures room { sink.old.room ≤ sink.new.room + length piece.now }
    ensures failed { OnErr result (sink.new ≡ record sink.old {
      calls = next_count sink.old.calls;
      faults = next_count sink.old.faults;
    }) }
{
    sink.put(piece)
}

/// `put_all`.
pub fn put_all_again<K: Sink>(sink: &mut K, piece: &[u8]) -> Result<(), Failed>
    ensures whole { OnOk result (Gets (K.state sink.old).held (K.state sink.new).held piece.now) }
    ensures part { OnErr result (PutsPart piece.now (K.state sink.old) (K.state sink.new)) }
    ensures faults { OnOk result ((K.state sink.new).faults ≡ (K.state sink.old).faults) }
{
    put_all(sink, piece)
}
