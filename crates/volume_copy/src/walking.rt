//! Where a volume's documents lie.
ghost use Rattle.std.specs.Prelude.{◌≡◌, ◌≤◌};
ghost use Rattle.worm_device.specs.Views.{Viewed};
ghost use Rattle.volume_copy.specs.Reading.{IsOnlyRead};
ghost use Rattle.volume_copy.specs.Walking.{CopyWalkEnds, WalksSlots};

use cell_types::{Refusal, Volume, memory};
use document_store::{Part, slot_part};
use std::alloc::Global;
use worm_device::{Device, Direct, View};

/// Where the documents of the done slots below a horizon lie, by rising number. Reads the log cells of each slot below it.
pub(crate) fn done_parts<D: Device>(
    alloc: Global,
    device: &mut D,
    volume: &Volume,
    horizon: u32,
) -> Result<Vec<Part>, Refusal>
    requires most { horizon ≤ volume.now.geometry.slots }
    requires size { volume.now.geometry.cells ≡ (D.state device.old).cells }
    ensures read { IsOnlyRead (D.state device.old) (D.state device.new) }
    ensures ends { CopyWalkEnds volume.now.geometry horizon (D.state device.old) (D.state device.new) result }
{
    done_in(alloc, &mut Direct::new(device), volume, horizon)
}

/// The same over a view.
fn done_in<V: View>(
    alloc: Global,
    view: &mut V,
    volume: &Volume,
    horizon: u32,
) -> Result<Vec<Part>, Refusal>
    requires most { horizon ≤ volume.now.geometry.slots }
    requires size { volume.now.geometry.cells ≤ (V.seen view.old).cells }
    ensures viewed { Viewed (V.seen view.old) (V.seen view.new) }
    ensures ends { WalksSlots volume.now.geometry horizon (V.seen view.old) (V.seen view.new) result }
{
    let mut parts = Vec::new(alloc);
    for slot in 0..horizon {
        let found = slot_part(view, volume, slot)?;
        let Some(part) = found else {
            continue;
        };
        memory::push(&mut parts, part)?;
    }
    Ok(parts)
}
