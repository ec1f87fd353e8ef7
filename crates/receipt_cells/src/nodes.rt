//! The cells of a node on a hash path: the bucket, the slot that it names, and the child cell.
ghost use Rattle.std.specs.Prelude.{◌<◌, ◌≤◌};
ghost use Rattle.receipt_cells.specs.Path.{ListsBucket, ListsChild, ListsMate};

use crate::cells::list_cell;
use crate::slots::list_slot;
use cell_types::Volume;
use kept_documents::{AskFault, bucket_at, child_at};
use receipt_text::ListedCells;
use volume_meaning::HeldBucket;
use worm_device::View;

/// Lists the cell of a bucket, and answers the bucket. `None` where the cell holds none.
pub(crate) fn list_bucket<V: View>(
    view: &mut V,
    at: u32,
    listed: &mut ListedCells,
) -> Result<Option<HeldBucket>, AskFault>
    requires { at < (V.seen view.old).cells }
    ensures { ListsBucket at (V.seen view.old) (V.seen view.new) listed.old listed.new result }
{
    let Ok(found) = bucket_at(view, at) else {
        return Err(AskFault::ReadFault);
    };
    let Some(bucket) = found else {
        return Ok(None);
    };
    if let Err(why) = list_cell(view, at, listed) {
        return Err(why);
    }
    Ok(Some(bucket))
}

/// Lists a child cell, and answers where it leads. `None` where the cell is none.
pub(crate) fn list_child<V: View>(
    view: &mut V,
    at: u32,
    listed: &mut ListedCells,
) -> Result<Option<u32>, AskFault>
    requires { at < (V.seen view.old).cells }
    ensures { ListsChild at (V.seen view.old) (V.seen view.new) listed.old listed.new result }
{
    let Ok(found) = child_at(view, at) else {
        return Err(AskFault::ReadFault);
    };
    let Some(target) = found else {
        return Ok(None);
    };
    if let Err(why) = list_cell(view, at, listed) {
        return Err(why);
    }
    Ok(Some(target))
}

/// Lists the cells of a bucket's slot, where the bucket has the digest's fingerprint. One with another fingerprint is
/// passed without a look at its slot.
pub(crate) fn list_mate<V: View>(
    view: &mut V,
    volume: &Volume,
    bucket: &HeldBucket,
    digest: &[u8; 32],
    listed: &mut ListedCells,
) -> Result<(), AskFault>
    requires { volume.now.geometry.cells ≤ (V.seen view.old).cells }
    ensures { ListsMate volume.now.geometry digest.now bucket.now (V.seen view.old) (V.seen view.new) listed.old
        listed.new result }
{
    if !bucket.has_fingerprint(digest) {
        return Ok(());
    }
    if bucket.slot >= volume.geometry.slots() {
        return Ok(());
    }
    list_slot(view, volume, bucket.slot, listed)
}
