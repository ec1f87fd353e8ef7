//! The whole index of one document.
ghost use Rattle.std.specs.Prelude.{◌≤◌, ◌+◌, ◌*◌, length};
ghost use Rattle.ingest_plan.specs.Indexes.{Indexes};
ghost use Rattle.ingest_plan.specs.Readiness.{IsReadyIndex};
ghost use Rattle.worm_device.specs.Overlays.{of_overlay};

use crate::PathEnd;
use crate::rows::insert_postings;
use cell_pool::{GrowthFault, Pool};
use cell_types::Volume;
use term_tags::ListedPosting;
use volume_meaning::nibble_of;
use worm_device::{Overlay, View};

/// Plans the index of a slot's document, over which nothing is planned yet: its postings, each in its list, and then its
/// bucket, at the place where the path of its identifier ends.
///
/// After a refusal what was planned is given up.
pub fn insert_document<V: View>(
    overlay: &mut Overlay<'_, V>,
    pool: &mut Pool,
    volume: &Volume,
    slot: u32,
    rows: &[ListedPosting],
    end: &PathEnd,
) -> Result<(), GrowthFault>
    requires { IsReadyIndex volume.now.geometry slot rows.now end.now pool.old (of_overlay V.seen overlay.old) }
    ensures from { pool.old.next ≤ pool.new.next }
    ensures to { pool.new.next ≤ pool.old.next + 256 * length rows.now + 32 }
    ensures indexes { Indexes volume.now.geometry slot rows.now end.now pool.old.next pool.new.next
        (of_overlay V.seen overlay.old) (of_overlay V.seen overlay.new) result }
{
    // Known of a half byte once it is asked for: it is below 16.
    let _half = nibble_of(&end.level.digest, end.level.number);
    insert_postings(overlay, pool, &volume.geometry, rows)?;
    hash_tree::insert(overlay, pool, volume, end.place, &end.level, slot)?;
    Ok(())
}
