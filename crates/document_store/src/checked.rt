//! Whether the document of a slot is whole.
ghost use Rattle.std.specs.Prelude.{◌≤◌, ◌+◌};
ghost use Rattle.volume_meaning.specs.Slots.{cells_for};
ghost use Rattle.worm_device.specs.Views.{Viewed};
ghost use Rattle.document_store.specs.Looks.{CheckEnds, HasPart};

use crate::part::{Part, read_part};
use cell_types::{Fault, Geometry};
use worm_device::View;

/// A document that is whole.
#[derive(Clone, Copy)]
pub struct Stored {
    /// How many bytes its identifier has, 1 to 200.
    pub identifier_length: u8,
    /// How many bytes its body has, 0 to 1,048,576.
    pub body_length: u32,
}

/// Checks the document of a part: it names the commit cell, by rule 4, where the document is broken. Reads each of its
/// cells once at most.
pub fn check<V: View>(view: &mut V, geometry: &Geometry, part: &Part) -> Result<Stored, Fault>
    requires size { geometry.now.cells ≤ (V.seen view.old).cells }
    requires part { HasPart geometry.now (V.seen view.old) part.now }
    ensures viewed { Viewed (V.seen view.old) (V.seen view.new) }
    ensures reads { (V.seen view.new).base.reads ≤ (V.seen view.old).base.reads + cells_for part.now.bytes }
    ensures ends { CheckEnds geometry.now part.now.slot (V.seen view.old) (V.seen view.new) result }
{
    let head = read_part(view, geometry, part)?;
    Ok(Stored {
        identifier_length: head.id_length,
        body_length: head.body_length,
    })
}
