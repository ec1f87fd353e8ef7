//! Standard input and output, or any reader and writer, as a source and a sink. They tell nothing.
//!
//! Each call of a port is one call of its reader or writer. So where these say which bytes they have left or hold,
//! a clause can name those, by `reader_of` and `writer_of`.
ghost use Rattle.std.specs.Prelude.{◌≡◌, None, OnErr};
ghost use Rattle.std.specs.Io.KnownBytes.{ReadConsumes, WriteAppends};
ghost use Rattle.worm_device.specs.Counts.{next_count};
ghost use Rattle.host_ports.specs.Sinks.{PutsIntoSink};
ghost use Rattle.host_ports.specs.Sources.{Takes};
ghost use Rattle.host_ports.specs.Standard.{reader_of, source_over, writer_of, sink_over};

use crate::{Failed, Sink, Source};
use std::io::{Read, Write};

/// What a reader reads, as a source. Each error of the reader is one fault.
#[derive(Drop)]
pub struct StdSource<R> {
    reader: R,
    faults: u64,
}

impl<R> StdSource<R> {
    /// What this reader reads.
    pub fn new(reader: R) -> StdSource<R>
        ensures reader { reader_of result ≡ reader }
        ensures told { source_over result ≡ record { left = None; faults = 0 } }
    {
        StdSource { reader, faults: 0 }
    }
}

impl<R: Read> Source for StdSource<R> {
    ghost state = { source_over };

    fn take(&mut self, into: &mut [u8]) -> Result<usize, Failed>
        ensures takes { Takes into.new (source_over self.old) (source_over self.new) result }
        ensures reads { ReadConsumes (R.remaining (reader_of self.old)) (R.remaining (reader_of self.new))
            result into.new }
        ensures once { OnErr result ((source_over self.new).faults ≡ next_count (source_over self.old).faults) }
    {
        match self.reader.read(into) {
            Ok(count) => Ok(count),
            Err(_) => {
                self.faults = self.faults.saturating_add(1);
                Err(Failed)
            }
        }
    }
}

/// What a writer writes, as a sink. Each error of the writer is one fault, and so is a write that takes nothing.
#[derive(Drop)]
pub struct StdSink<W> {
    writer: W,
    faults: u64,
}

impl<W> StdSink<W> {
    /// What this writer writes.
    pub fn new(writer: W) -> StdSink<W>
        ensures writer { writer_of result ≡ writer }
        ensures told { sink_over result ≡ record { held = None; faults = 0 } }
    {
        StdSink { writer, faults: 0 }
    }
}

impl<W: Write> Sink for StdSink<W> {
    ghost state = { sink_over };

    fn put(&mut self, piece: &[u8]) -> Result<usize, Failed>
        ensures puts { PutsIntoSink piece.now (sink_over self.old) (sink_over self.new) result }
        ensures writes { WriteAppends (W.contents (writer_of self.old)) (W.contents (writer_of self.new))
            result piece.now }
        ensures once { OnErr result ((sink_over self.new).faults ≡ next_count (sink_over self.old).faults) }
    {
        match self.writer.write(piece) {
            Ok(count) if 0 < count || piece.is_empty() => Ok(count),
            _ => {
                self.faults = self.faults.saturating_add(1);
                Err(Failed)
            }
        }
    }
}
