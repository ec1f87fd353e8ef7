//! The cells of a hash path, from the root down to a slot's bucket.
ghost use Rattle.std.specs.Prelude.{◌≡◌, ◌<◌, ◌≤◌, ◌+◌};
ghost use Rattle.volume_meaning.specs.declared.nodes.TheConstants.{NODE_CELLS};
ghost use Rattle.receipt_cells.specs.Path.{ListsDown, ListsPath};

use crate::nodes::{list_bucket, list_child, list_mate};
use cell_types::Volume;
use kept_documents::AskFault;
use receipt_text::ListedCells;
use volume_meaning::{NODE_BUCKETS, digest_of, nibble_of};
use worm_device::View;

/// A digest has 64 half bytes, so there is no level below this one.
const LAST_LEVEL: u8 = 63;

/// Lists the cells of the hash path of this identifier down to the slot's bucket.
pub(crate) fn list_path<V: View>(
    view: &mut V,
    volume: &Volume,
    slot: u32,
    id: &[u8],
    listed: &mut ListedCells,
) -> Result<(), AskFault>
    requires size { volume.now.geometry.cells ≡ (V.seen view.old).cells }
    ensures { ListsPath volume.now.geometry slot id.now (V.seen view.old) (V.seen view.new) listed.old listed.new
        result }
{
    let digest = digest_of(id);
    list_down(
        view,
        volume,
        slot,
        &digest,
        volume.geometry.root_at(),
        0,
        listed,
    )
}

/// The same from a node of this level. Where the way ends before the slot's own bucket there is no hash trail, and no
/// list is owed.
fn list_down<V: View>(
    view: &mut V,
    volume: &Volume,
    slot: u32,
    digest: &[u8; 32],
    node: u32,
    level: u8,
    listed: &mut ListedCells,
) -> Result<(), AskFault>
    requires size { volume.now.geometry.cells ≡ (V.seen view.old).cells }
    requires inside { node + NODE_CELLS ≤ (V.seen view.old).cells }
    requires level { level < 64 }
    ensures { ListsDown volume.now.geometry slot digest.now node level (V.seen view.old) (V.seen view.new) listed.old
        listed.new result }
{
    let x = u32::from(nibble_of(digest, level));
    let found = match list_bucket(view, node + x, listed) {
        Ok(found) => found,
        Err(why) => return Err(why),
    };
    let Some(bucket) = found else {
        return Ok(());
    };
    if bucket.is_own(slot, digest) {
        return Ok(());
    }
    if let Err(why) = list_mate(view, volume, &bucket, digest, listed) {
        return Err(why);
    }
    let under = match list_child(view, node + NODE_BUCKETS + x, listed) {
        Ok(under) => under,
        Err(why) => return Err(why),
    };
    let Some(target) = under else {
        return Ok(());
    };
    if level == LAST_LEVEL {
        return Ok(());
    }
    if u64::from(target) + 32 > u64::from(view.cells()) {
        return Ok(());
    }
    list_down(view, volume, slot, digest, target, level + 1, listed)
}
