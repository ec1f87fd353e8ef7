//! A piece, put into a sink whole.
ghost use Rattle.std.specs.Prelude.{◌≡◌, OnOk, OnErr};
ghost use Rattle.host_ports.specs.Sinks.{Gets, PutsPart};

use crate::{Failed, Sink};

/// Puts the whole piece, in as many calls as it takes. Where the sink fails, it may have got some first bytes of it.
pub fn put_all<K: Sink>(sink: &mut K, piece: &[u8]) -> Result<(), Failed>
    ensures whole { OnOk result (Gets (K.state sink.old).held (K.state sink.new).held piece.now) }
    ensures part { OnErr result (PutsPart piece.now (K.state sink.old) (K.state sink.new)) }
    ensures faults { OnOk result ((K.state sink.new).faults ≡ (K.state sink.old).faults) }
{
    let mut rest = piece;
    while !rest.is_empty() {
        let put = sink.put(rest)?;
        rest = &rest[put..];
    }
    Ok(())
}
