//! What is done with a source and a sink.
use crate::acts::Port;
use crate::answers::Answer;
use host_ports::{MemorySink, MemorySource, Sink, Source};
use std::alloc::{AllocError, Global};

/// A source and a sink in memory, and the four bytes that the source gives into.
#[derive(Drop)]
pub struct Ports {
    source: MemorySource,
    sink: MemorySink,
    piece: [u8; 4],
}

impl Ports {
    /// A source of no bytes, and a sink with no room.
    pub fn new(alloc: Global) -> Ports {
        Ports {
            source: MemorySource::new(Vec::new(alloc)),
            sink: MemorySink::new(alloc),
            piece: [b'.'; 4],
        }
    }

    /// What comes of it.
    pub fn carry_out(&mut self, alloc: Global, port: &Port<'_>) -> Result<Answer, AllocError> {
        match *port {
            Port::Source(text) => {
                let mut bytes = Vec::new(alloc);
                bytes.extend_from_slice(text.as_bytes())?;
                self.source = MemorySource::new(bytes);
            }
            Port::SourceFails(call) => self.source.fail_at(call),
            Port::Take(count) => return self.take(alloc, count as usize),
            Port::SinkFails(call) => self.sink.fail_at(call),
            Port::SinkRoom(bytes) => return Ok(Answer::of(self.sink.reserve(bytes))),
            Port::Put(text) => return Ok(put(&mut self.sink, text)),
            Port::Copy(pieces) => return Ok(copy(&mut self.source, &mut self.sink, pieces)),
            Port::Held => return Ok(Answer::Text(text_of(alloc, self.sink.bytes())?)),
        }
        Ok(Answer::Done)
    }

    /// Takes up to so many bytes into the piece: how many came, and what the piece holds then.
    fn take(&mut self, alloc: Global, count: usize) -> Result<Answer, AllocError> {
        let Some(into) = self.piece.get_mut(..count) else {
            return Ok(Answer::Nothing);
        };
        let taken = self.source.take(into);
        let piece = text_of(alloc, &self.piece)?;
        Ok(Answer::Text(match taken {
            Ok(came) => format!(in alloc; "{came} {piece}")?,
            Err(_) => format!(in alloc; "failed {piece}")?,
        }))
    }
}

/// Puts a text: how many bytes the sink got.
fn put(sink: &mut MemorySink, text: &str) -> Answer {
    match sink.put(text.as_bytes()) {
        Ok(got) => Answer::Number(got as u64),
        Err(_) => Answer::Failed,
    }
}

/// Copies at most so many pieces of four bytes, up to the source's end or a piece that the sink gets only in part: how many
/// bytes the sink got.
fn copy<S: Source, K: Sink>(source: &mut S, sink: &mut K, pieces: u32) -> Answer {
    let mut buffer = [0u8; 4];
    let mut copied: u64 = 0;
    for _ in 0..pieces {
        let Ok(came) = source.take(&mut buffer) else {
            return Answer::Failed;
        };
        let Ok(got) = sink.put(&buffer[..came]) else {
            return Answer::Failed;
        };
        copied = copied.saturating_add(got as u64);
        if came == 0 || got < came {
            break;
        }
    }
    Answer::Number(copied)
}

/// The characters of these bytes.
fn text_of(alloc: Global, bytes: &[u8]) -> Result<String, AllocError> {
    let mut text = String::new(alloc);
    for byte in bytes {
        text.push(char::from(*byte))?;
    }
    Ok(text)
}
