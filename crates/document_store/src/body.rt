//! The body of a document, put into a sink.
ghost use Rattle.std.specs.Prelude.{◌≡◌, ◌≤◌, ◌+◌, ◌*◌, IsTrue};
ghost use Rattle.volume_meaning.specs.Slots.{cells_for};
ghost use Rattle.worm_device.specs.Views.{Viewed};
ghost use Rattle.document_store.specs.Looks.{BodyEnds, HasPart, HoldsSome, TakeEnds};
ghost use Rattle.document_store.specs.Putting.{body_fault_of};

use crate::head::Head;
use crate::part::{Part, name_commit, read_part};
use crate::putting::{PutFault, put_document};
use cell_types::{Evidence, Fault, Geometry};
use host_ports::Sink;
use worm_device::View;

/// Why a body was not put whole.
#[derive(Clone, Copy)]
pub enum BodyFault {
    /// A written cell breaks a rule.
    Tampered(Evidence),
    /// A read failed.
    ReadFault,
    /// A call of the sink failed.
    SinkFault,
}

impl From<Fault> for BodyFault {
    ghost from_gives = { λ fault result. result ≡ body_fault_of fault };

    fn from(fault: Fault) -> BodyFault {
        match fault {
            Fault::Tampered(evidence) => BodyFault::Tampered(evidence),
            Fault::Failed => BodyFault::ReadFault,
        }
    }
}

/// Puts the body of the document of a part into the sink, and answers how many bytes it has. The whole document is checked
/// before the first byte goes out. Reads each of its cells twice at most, and takes no memory: bytes go out in pieces of
/// 240.
pub fn body_into<V: View, K: Sink>(
    view: &mut V,
    geometry: &Geometry,
    part: &Part,
    sink: &mut K,
) -> Result<u32, BodyFault>
    requires size { geometry.now.cells ≤ (V.seen view.old).cells }
    requires part { HasPart geometry.now (V.seen view.old) part.now }
    ensures viewed { Viewed (V.seen view.old) (V.seen view.new) }
    ensures reads { (V.seen view.new).base.reads ≤ (V.seen view.old).base.reads + 2 * cells_for part.now.bytes }
    ensures ends { BodyEnds geometry.now part.now.slot (V.seen view.old) (V.seen view.new) (K.state sink.old)
        (K.state sink.new) result }
{
    let _checked = read_part(view, geometry, part)?;
    put_part(view, geometry, part, sink)
}

/// The same of a document that was read whole before, and is not checked again: so it reads each of its cells once at most.
pub fn put_part<V: View, K: Sink>(
    view: &mut V,
    geometry: &Geometry,
    part: &Part,
    sink: &mut K,
) -> Result<u32, BodyFault>
    requires size { geometry.now.cells ≤ (V.seen view.old).cells }
    requires part { HasPart geometry.now (V.seen view.old) part.now }
    requires whole { IsTrue (V.seen view.old).base.tells
        → HoldsSome geometry.now (V.seen view.old).image part.now.slot }
    ensures viewed { Viewed (V.seen view.old) (V.seen view.new) }
    ensures reads { (V.seen view.new).base.reads ≤ (V.seen view.old).base.reads + cells_for part.now.bytes }
    ensures ends { BodyEnds geometry.now part.now.slot (V.seen view.old) (V.seen view.new) (K.state sink.old)
        (K.state sink.new) result }
{
    match take_part(view, geometry, part, sink) {
        Ok(head) => Ok(head.body_length),
        Err(fault) => Err(fault),
    }
}

/// Reads the document of a part, each of its cells once at most: answers what stands before the body, and puts the body
/// into the sink. The document is not checked before, so where it is broken a front of it may have gone out.
pub fn take_part<V: View, K: Sink>(
    view: &mut V,
    geometry: &Geometry,
    part: &Part,
    sink: &mut K,
) -> Result<Head, BodyFault>
    requires size { geometry.now.cells ≤ (V.seen view.old).cells }
    requires part { HasPart geometry.now (V.seen view.old) part.now }
    ensures viewed { Viewed (V.seen view.old) (V.seen view.new) }
    ensures reads { (V.seen view.new).base.reads ≤ (V.seen view.old).base.reads + cells_for part.now.bytes }
    ensures ends { TakeEnds geometry.now part.now (V.seen view.old) (V.seen view.new) (K.state sink.old)
        (K.state sink.new) result }
{
    match put_document(view, part.start, part.bytes, sink) {
        Ok(head) => Ok(head),
        Err(PutFault::Broken) => Err(BodyFault::from(name_commit(geometry, part))),
        Err(PutFault::ReadFault) => Err(BodyFault::ReadFault),
        Err(PutFault::SinkFault) => Err(BodyFault::SinkFault),
    }
}
