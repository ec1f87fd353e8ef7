//! Callers that need no proof: what the words of the contracts are for.
ghost use Rattle.std.specs.Prelude.{◌≡◌, ◌≤◌, ◌⊎◌, ◌++◌, take, drop, None, Some, IsErr, IfOk, IfSome, OnOk, OnErr};
ghost use Rattle.host_ports.specs.Sources.{Gives, IsAtEnd};
ghost use Rattle.worm_device.specs.Counts.{Rose};

use host_ports::{Failed, MemorySink, MemorySource, Sink, Source};

/// Takes up to four bytes and puts them once. Answers how many came, and how many of them the sink got.
fn move_once<S: Source, K: Sink>(source: &mut S, sink: &mut K) -> Result<(usize, usize), Failed>
    ensures cause { IsErr result → Rose (S.state source.old).faults (S.state source.new).faults
        ⊎ Rose (K.state sink.old).faults (K.state sink.new).faults }
    ensures gone { IfOk result (λ moved. IfSome (S.state source.old).left (λ before.
        Gives (Some before) (S.state source.new).left (take moved.0 before))) }
    ensures got { IfOk result (λ moved. IfSome (S.state source.old).left (λ before.
        IfSome (K.state sink.old).held (λ held. (K.state sink.new).held ≡ Some (held ++ take moved.1 before)))) }
    ensures most { IfOk result (λ moved. (moved.1 ≤ moved.0) × (moved.0 ≤ 4)) }
    ensures some { IfOk result (λ moved. moved.1 ≡ 0 → IsAtEnd (S.state source.new).left) }
{
    let mut buffer = [0u8; 4];
    let came = source.take(&mut buffer)?;
    let got = sink.put(&buffer[..came])?;
    Ok((came, got))
}

/// The same in memory, where all is told.
fn move_in_memory(
    source: &mut MemorySource,
    sink: &mut MemorySink,
) -> Result<(usize, usize), Failed>
    ensures got { IfOk result (λ moved. sink.new.held ≡ sink.old.held ++ take moved.1 source.old.left) }
    ensures gone { IfOk result (λ moved. source.new.left ≡ drop moved.0 source.old.left) }
    ensures cause { IsErr result → Rose source.old.faults source.new.faults ⊎ Rose sink.old.faults sink.new.faults }
{
    move_once(source, sink)
}

/// Of a sink that got room, and isn't to fail, a put gets the whole piece.
fn reserve_and_put(sink: &mut MemorySink, piece: &[u8; 4]) -> Result<(), Failed>
    requires { sink.old.fails ≡ None }
    ensures got { OnOk result (sink.new.held ≡ sink.old.held ++ piece.now) }
    ensures kept { OnErr result (sink.new.held ≡ sink.old.held) }
    ensures still { sink.new.faults ≡ sink.old.faults }
{
    if sink.reserve(4).is_err() {
        return Err(Failed);
    }
    sink.put(piece)?;
    Ok(())
}
