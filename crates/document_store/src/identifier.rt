//! Identifiers, and which one the document of a slot has.
ghost use Rattle.std.specs.Prelude.{◌≤◌, ◌+◌, ◌↔◌, IsTrue};
ghost use Rattle.volume_meaning.specs.Documents.{IsIdentifier};
ghost use Rattle.volume_meaning.specs.Slots.{cells_for};
ghost use Rattle.worm_device.specs.Views.{Viewed};
ghost use Rattle.document_store.specs.Looks.{HasPart, IdentifierEnds, SameEnds};

use crate::part::{Part, read_part};
use cell_types::{Fault, Geometry, Refusal, memory};
use std::alloc::Global;
use volume_meaning::MAX_IDENTIFIER_BYTES;
use worm_device::View;

/// Whether the bytes are an identifier: 1 to 200 of them, each a printing ASCII character and no space.
pub fn is_identifier(bytes: &[u8]) -> bool
    ensures { IsTrue result ↔ IsIdentifier bytes.now }
{
    !bytes.is_empty()
        && bytes.len() <= MAX_IDENTIFIER_BYTES
        && bytes.iter().all(|byte| byte.is_ascii_graphic())
}

/// The identifier of the document of a part. Reads each of its cells once at most.
pub fn identifier_of<V: View>(
    alloc: Global,
    view: &mut V,
    geometry: &Geometry,
    part: &Part,
) -> Result<Vec<u8>, Refusal>
    requires size { geometry.now.cells ≤ (V.seen view.old).cells }
    requires part { HasPart geometry.now (V.seen view.old) part.now }
    ensures viewed { Viewed (V.seen view.old) (V.seen view.new) }
    ensures reads { (V.seen view.new).base.reads ≤ (V.seen view.old).base.reads + cells_for part.now.bytes }
    ensures ends { IdentifierEnds geometry.now part.now.slot (V.seen view.old) (V.seen view.new) result }
{
    let head = read_part(view, geometry, part)?;
    let mut id = Vec::new(alloc);
    memory::extend_from_slice(&mut id, &head.id[..usize::from(head.id_length)])?;
    Ok(id)
}

/// Whether the document of a part has this identifier. Reads each of its cells once at most.
pub fn same_identifier<V: View>(
    view: &mut V,
    geometry: &Geometry,
    part: &Part,
    id: &[u8],
) -> Result<bool, Fault>
    requires size { geometry.now.cells ≤ (V.seen view.old).cells }
    requires part { HasPart geometry.now (V.seen view.old) part.now }
    ensures viewed { Viewed (V.seen view.old) (V.seen view.new) }
    ensures reads { (V.seen view.new).base.reads ≤ (V.seen view.old).base.reads + cells_for part.now.bytes }
    ensures ends { SameEnds geometry.now part.now.slot id.now (V.seen view.old) (V.seen view.new) result }
{
    let head = read_part(view, geometry, part)?;
    Ok(&head.id[..usize::from(head.id_length)] == id)
}
