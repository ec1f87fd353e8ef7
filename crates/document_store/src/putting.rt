//! The body of a part, read and put out piece by piece.
ghost use Rattle.std.specs.Prelude.{◌≡◌, ◌≤◌, ◌+◌, length};
ghost use Rattle.volume_meaning.specs.Slots.{cells_for};
ghost use Rattle.worm_device.specs.Views.{Viewed};
ghost use Rattle.append_file.specs.Reading.{IsPosition};
ghost use Rattle.document_store.specs.Heads.{IsHead};
ghost use Rattle.document_store.specs.Putting.{FillEnds, PutBodyEnds, PutRestEnds, put_fault_of};

use crate::head::{Head, read_head};
use append_file::{ContentFault, Position, read_byte};
use host_ports::{Sink, put_all};
use worm_device::View;

/// How many bytes of a body go out in one piece, at most: those of 16 cells.
const PIECE_BYTES: u32 = 240;

/// Why the body of a part was not put whole.
#[derive(Clone, Copy)]
pub(crate) enum PutFault {
    /// The part spells no document.
    Broken,
    /// A read failed.
    ReadFault,
    /// A call of the sink failed.
    SinkFault,
}

impl From<ContentFault> for PutFault {
    ghost from_gives = { λ fault result. result ≡ put_fault_of fault };

    fn from(fault: ContentFault) -> PutFault {
        match fault {
            ContentFault::Broken => PutFault::Broken,
            ContentFault::ReadFault => PutFault::ReadFault,
        }
    }
}

/// Puts the body of the document in a part of so many stored bytes from `start` on, and answers what stands before it.
/// Reads each cell once.
pub(crate) fn put_document<V: View, K: Sink>(
    view: &mut V,
    start: u32,
    bytes: u32,
    sink: &mut K,
) -> Result<Head, PutFault>
    requires { start + cells_for bytes ≤ (V.seen view.old).cells }
    ensures viewed { Viewed (V.seen view.old) (V.seen view.new) }
    ensures reads { (V.seen view.new).base.reads ≤ (V.seen view.old).base.reads + cells_for bytes }
    ensures ends { PutBodyEnds start bytes (V.seen view.old) (V.seen view.new) (K.state sink.old) (K.state sink.new)
        result }
{
    let mut position = Position::new(start, bytes);
    let head = read_head(view, start, bytes, &mut position)?;
    put_body(view, start, bytes, &mut position, &head, sink)?;
    Ok(head)
}

/// Puts the body behind a head.
fn put_body<V: View, K: Sink>(
    view: &mut V,
    start: u32,
    bytes: u32,
    position: &mut Position,
    head: &Head,
    sink: &mut K,
) -> Result<(), PutFault>
    requires head { IsHead (V.seen view.old) start bytes position.old head.now }
    requires inside { start + cells_for bytes ≤ (V.seen view.old).cells }
    ensures viewed { Viewed (V.seen view.old) (V.seen view.new) }
    ensures is { IsPosition position.new }
    ensures bytes { position.new.bytes ≡ bytes }
    ensures reads { (V.seen view.new).base.reads + position.old.read
        ≤ (V.seen view.old).base.reads + position.new.read }
    ensures ends { PutRestEnds start bytes head.now (V.seen view.old) (V.seen view.new) (K.state sink.old)
        (K.state sink.new) result }
{
    let mut buffer = [0; PIECE_BYTES as usize];
    let mut put = 0;
    while put < head.body_length {
        let count = PIECE_BYTES.min(head.body_length - put);
        let piece = &mut buffer[..count as usize];
        fill(view, position, piece)?;
        let Ok(()) = put_all(sink, piece) else {
            return Err(PutFault::SinkFault);
        };
        put += count;
    }
    Ok(())
}

/// Reads as many bytes of a part as the slice has.
fn fill<V: View>(view: &mut V, position: &mut Position, into: &mut [u8]) -> Result<(), ContentFault>
    requires is { IsPosition position.old }
    requires inside { position.old.start + cells_for position.old.bytes ≤ (V.seen view.old).cells }
    ensures is { IsPosition position.new }
    ensures start { position.new.start ≡ position.old.start }
    ensures bytes { position.new.bytes ≡ position.old.bytes }
    ensures length { length into.new ≡ length into.old }
    ensures viewed { Viewed (V.seen view.old) (V.seen view.new) }
    ensures reads { (V.seen view.new).base.reads + position.old.read
        ≤ (V.seen view.old).base.reads + position.new.read }
    ensures ends { FillEnds (V.seen view.old) (V.seen view.new) position.old position.new into.new result }
{
    for k in 0..into.len() {
        let byte = read_byte(view, position)?;
        into[k] = byte;
    }
    Ok(())
}
