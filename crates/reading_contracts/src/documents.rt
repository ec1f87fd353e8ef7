//! The bytes of documents.
ghost use Rattle.std.specs.Prelude.{◌≡◌, ◌≤◌, ◌+◌, ◌*◌};
ghost use Rattle.append_file.specs.Reading.{IsPosition, NextByteEnds, NextRowEnds};
ghost use Rattle.commit_record.specs.Partition.{HasRoom};
ghost use Rattle.document_store.specs.Looks.{BodyEnds, CheckEnds, HasPart, part_of};
ghost use Rattle.volume_meaning.specs.Slots as slots;
ghost use Rattle.worm_device.specs.Views.{Viewed};

use append_file::{ContentFault, Position, ROW_BYTES, next_byte, next_row};
use cell_types::{Fault, Geometry};
use commit_record::SlotState;
use document_store::{BodyFault, Part, Stored, body_into, check, part_of_state};
use host_ports::Sink;
use worm_device::View;

/// `next_byte`.
pub fn next_byte_again<V: View>(
    view: &mut V,
    position: &mut Position,
) -> Option<Result<u8, ContentFault>>
    requires is { IsPosition position.old }
    requires inside { position.old.start + slots.cells_for position.old.bytes ≤ (V.seen view.old).cells }
    ensures is { IsPosition position.new }
    ensures start { position.new.start ≡ position.old.start }
    ensures bytes { position.new.bytes ≡ position.old.bytes }
    ensures viewed { Viewed (V.seen view.old) (V.seen view.new) }
    ensures reads { (V.seen view.new).base.reads + position.old.read
        ≤ (V.seen view.old).base.reads + position.new.read }
    ensures ends { NextByteEnds (V.seen view.old) (V.seen view.new) position.old position.new result }
{
    next_byte(view, position)
}

/// `next_row`.
pub fn next_row_again<V: View>(
    view: &mut V,
    position: &mut Position,
    into: &mut [u8; ROW_BYTES],
) -> Result<usize, ContentFault>
    requires is { IsPosition position.old }
    requires inside { position.old.start + slots.cells_for position.old.bytes ≤ (V.seen view.old).cells }
    ensures is { IsPosition position.new }
    ensures start { position.new.start ≡ position.old.start }
    ensures bytes { position.new.bytes ≡ position.old.bytes }
    ensures viewed { Viewed (V.seen view.old) (V.seen view.new) }
    ensures reads { (V.seen view.new).base.reads + position.old.read
        ≤ (V.seen view.old).base.reads + position.new.read }
    ensures ends { NextRowEnds (V.seen view.old) (V.seen view.new) position.old position.new into.new result }
{
    next_row(view, position, into)
}

/// `part_of_state`.
pub fn part_of_state_again(slot: u32, state: &SlotState) -> Option<Part>
    requires { HasRoom state.now }
    ensures { result ≡ part_of slot state.now }
{
    part_of_state(slot, state)
}

/// `check`.
pub fn check_again<V: View>(view: &mut V, geometry: &Geometry, part: &Part) -> Result<Stored, Fault>
    requires size { geometry.now.cells ≤ (V.seen view.old).cells }
    requires part { HasPart geometry.now (V.seen view.old) part.now }
    ensures viewed { Viewed (V.seen view.old) (V.seen view.new) }
    ensures reads { (V.seen view.new).base.reads
        ≤ (V.seen view.old).base.reads + slots.cells_for part.now.bytes }
    ensures ends { CheckEnds geometry.now part.now.slot (V.seen view.old) (V.seen view.new) result }
{
    check(view, geometry, part)
}

/// `body_into`.
pub fn body_into_again<V: View, K: Sink>(
    view: &mut V,
    geometry: &Geometry,
    part: &Part,
    sink: &mut K,
) -> Result<u32, BodyFault>
    requires size { geometry.now.cells ≤ (V.seen view.old).cells }
    requires part { HasPart geometry.now (V.seen view.old) part.now }
    ensures viewed { Viewed (V.seen view.old) (V.seen view.new) }
    ensures reads { (V.seen view.new).base.reads
        ≤ (V.seen view.old).base.reads + 2 * slots.cells_for part.now.bytes }
    ensures ends { BodyEnds geometry.now part.now.slot (V.seen view.old) (V.seen view.new) (K.state sink.old)
        (K.state sink.new) result }
{
    body_into(view, geometry, part, sink)
}
