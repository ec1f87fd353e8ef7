//! A row of postings.
ghost use Rattle.std.specs.Prelude.{◌≡◌, ◌≤◌, ◌+◌, ◌*◌, ◌⊎◌, length};
ghost use Rattle.cell_pool.specs.Grants.{TakesFront};
ghost use Rattle.cell_types.specs.Layout.{list_at, pool_at};
ghost use Rattle.ingest_plan.specs.Readiness.{IsReadyPosting, IsReadyRow};
ghost use Rattle.ingest_plan.specs.Rows.{InsertsRow};
ghost use Rattle.jump_insertion.specs.Inserting.{InsertsPosting};
ghost use Rattle.worm_device.specs.Overlays.{of_overlay};

use cell_pool::{GrowthFault, Pool};
use cell_types::Geometry;
use jump_block::Entry;
use jump_insertion::insert;
use term_tags::ListedPosting;
use worm_device::{Overlay, View};

/// Inserts the postings of a slot's document, by list and key, each into its list.
///
/// Afterwards each of them has a trail, and what is planned is what was planned before, these postings, and pointers.
/// After a refusal what was planned is given up.
pub fn insert_postings<V: View>(
    overlay: &mut Overlay<'_, V>,
    pool: &mut Pool,
    geometry: &Geometry,
    rows: &[ListedPosting],
) -> Result<(), GrowthFault>
    requires { IsReadyRow geometry.now rows.now pool.old (of_overlay V.seen overlay.old) }
    ensures from { pool.old.next ≤ pool.new.next }
    ensures to { pool.new.next ≤ pool.old.next + 256 * length rows.now }
    ensures end { pool.new.end ≡ pool.old.end }
    ensures inserts { InsertsRow geometry.now rows.now pool.old.next pool.new.next
        (of_overlay V.seen overlay.old) (of_overlay V.seen overlay.new) result }
{
    for row in rows {
        insert_one(overlay, pool, geometry, row)?;
    }
    Ok(())
}

/// Inserts one posting into its list.
fn insert_one<V: View>(
    overlay: &mut Overlay<'_, V>,
    pool: &mut Pool,
    geometry: &Geometry,
    row: &ListedPosting,
) -> Result<Entry, GrowthFault>
    requires { IsReadyPosting geometry.now row.now pool.old (of_overlay V.seen overlay.old) }
    ensures pool { (pool.new ≡ pool.old) ⊎ TakesFront pool.old pool.new 256 pool.old.next }
    ensures inserts { InsertsPosting (list_at geometry.now row.now.list) (pool_at geometry.now)
        pool.old.next pool.new.next row.now.posting
        (of_overlay V.seen overlay.old) (of_overlay V.seen overlay.new) result }
{
    insert(
        overlay,
        pool,
        geometry.list_at(row.list()),
        geometry.pool_at(),
        row.posting(),
    )
}
