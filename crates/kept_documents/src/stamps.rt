//! The stamp of a slot.
ghost use Rattle.std.specs.Prelude.{◌<◌, ◌≤◌};
ghost use Rattle.kept_documents.specs.Stamps.{AsksStamp};

use cell_types::Volume;
use commit_record::stamp_of;
use worm_device::{Failed, View};

/// The stamp of a slot.
#[derive(Clone, Copy, Debug, PartialEq, Eq)]
pub struct SlotStamp {
    /// In seconds; `None` on a volume whose documents are not stamped.
    pub seconds: Option<u32>,
}

/// The stamp of a slot, `None` where the volume's documents are stamped and the slot has no stamp.
pub fn slot_stamp<V: View>(
    view: &mut V,
    volume: &Volume,
    slot: u32,
) -> Result<Option<SlotStamp>, Failed>
    requires slot { slot < volume.now.geometry.slots }
    requires size { volume.now.geometry.cells ≤ (V.seen view.old).cells }
    ensures { AsksStamp volume.now.geometry slot (V.seen view.old) (V.seen view.new) result }
{
    if !volume.geometry.is_stamped() {
        return Ok(Some(SlotStamp { seconds: None }));
    }
    let found = stamp_of(view, volume, slot)?;
    let Some(seconds) = found else {
        return Ok(None);
    };
    Ok(Some(SlotStamp {
        seconds: Some(seconds),
    }))
}
