//! A source of bytes.
ghost use Rattle.host_ports.specs.Sources.{SourceState, Takes};

use worm_device::Failed;

/// Bytes that are taken from the front, in order, up to their end.
pub trait Source {
    /// What the source is, for contracts.
    ghost state: { Self → SourceState };

    /// Moves some of the next bytes to the front of `into`, and answers how many: at most as many as `into` has.
    /// None, for an `into` that is not empty, is the end of the input. What `into` holds behind them is left open.
    fn take(&mut self, into: &mut [u8]) -> Result<usize, Failed>
        ensures { Takes into.new (state self.old) (state self.new) result };
}
