//! A sink for bytes.
ghost use Rattle.host_ports.specs.Sinks.{SinkState, PutsIntoSink};

use worm_device::Failed;

/// Bytes that are put behind one another.
pub trait Sink {
    /// What the sink is, for contracts.
    ghost state: { Self → SinkState };

    /// Puts some first bytes of the piece behind what the sink holds, and answers how many: at least one of a piece
    /// that is not empty. After a failure it may have got some first bytes of the piece.
    fn put(&mut self, piece: &[u8]) -> Result<usize, Failed>
        ensures { PutsIntoSink piece.now (state self.old) (state self.new) result };
}
