//! The stamp of a slot, and the look at the cell that holds it.
ghost use Rattle.std.specs.Prelude.{◌<◌, ◌≤◌, ◌+◌};
ghost use Rattle.worm_device.specs.Views.{Viewed};
ghost use Rattle.commit_record.specs.SlotCells.{StampSeen};
ghost use Rattle.commit_record.specs.Stamps.{IsStampFound, IsStampIn, ReadsStamp};
ghost use Rattle.commit_record.specs.States.{stamp_cells};

use cell_types::{Geometry, RecordCell, Volume};
use worm_device::{Failed, Found, View, look};

/// What stands in the stamp cell of a slot, and `None` on a volume whose documents are not stamped, where nothing is
/// read.
pub fn look_at_stamp<V: View>(
    view: &mut V,
    geometry: &Geometry,
    slot: u32,
) -> Result<Option<Found>, Failed>
    requires slot { slot < geometry.now.slots }
    requires size { geometry.now.cells ≤ (V.seen view.old).cells }
    ensures viewed { Viewed (V.seen view.old) (V.seen view.new) }
    ensures reads { (V.seen view.new).base.reads ≤ (V.seen view.old).base.reads + stamp_cells geometry.now }
    ensures ends { StampSeen geometry.now slot (V.seen view.old) (V.seen view.new) result }
{
    if !geometry.is_stamped() {
        return Ok(None);
    }
    let found = look(view, geometry.spare_at(slot))?;
    Ok(Some(found))
}

/// The stamp that a slot has, in seconds, and `None` where its spare cell holds none. A slot that is committed or done has
/// one where documents are stamped, on each device that tells its image. Makes one read.
pub fn stamp_of<V: View>(view: &mut V, volume: &Volume, slot: u32) -> Result<Option<u32>, Failed>
    requires slot { slot < volume.now.geometry.slots }
    requires size { volume.now.geometry.cells ≤ (V.seen view.old).cells }
    ensures { ReadsStamp slot (V.seen view.old) (V.seen view.new) result }
{
    let found = look(view, volume.geometry.spare_at(slot))?;
    Ok(stamp_found(found))
}

/// The stamp that was found in a cell, if it is one.
pub(crate) fn stamp_found(found: Found) -> Option<u32>
    ensures { IsStampFound found result }
{
    match found {
        Found::Blank => None,
        Found::Stray(_cell) => None,
        Found::Record(_cell, held) => stamp_in(held),
    }
}

/// The stamp that this record is.
fn stamp_in(held: RecordCell) -> Option<u32>
    ensures { IsStampIn held result }
{
    let RecordCell::Stamp { seconds } = held else {
        return None;
    };
    Some(seconds)
}
