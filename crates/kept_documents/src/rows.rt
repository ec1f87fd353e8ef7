//! Whether postings have their trails.
ghost use Rattle.std.specs.Prelude.{◌<◌, ◌≤◌};
ghost use Rattle.cell_types.specs.Layout.{all_lists};
ghost use Rattle.kept_documents.specs.Postings.{AreOfLists, AsksRow, AsksRows};

use crate::trails::has_trail;
use cell_types::Geometry;
use term_tags::ListedPosting;
use worm_device::{Failed, View};

/// Whether each of the postings has a trail from its list's first block.
pub(crate) fn are_trailed<V: View>(
    view: &mut V,
    geometry: &Geometry,
    rows: &[ListedPosting],
) -> Result<bool, Failed>
    requires size { geometry.now.cells ≤ (V.seen view.old).cells }
    requires lists { AreOfLists (all_lists geometry.now) rows.now }
    ensures { AsksRows geometry.now rows.now (V.seen view.old) (V.seen view.new) result }
{
    for row in rows {
        let Ok(trailed) = is_trailed(view, geometry, row) else {
            return Err(Failed);
        };
        if !trailed {
            return Ok(false);
        }
    }
    Ok(true)
}

/// Whether one posting has a trail from its list's first block.
fn is_trailed<V: View>(
    view: &mut V,
    geometry: &Geometry,
    row: &ListedPosting,
) -> Result<bool, Failed>
    requires size { geometry.now.cells ≤ (V.seen view.old).cells }
    requires list { row.now.list < all_lists geometry.now }
    ensures { AsksRow geometry.now row.now (V.seen view.old) (V.seen view.new) result }
{
    has_trail(
        view,
        geometry.pool_at(),
        geometry.list_at(row.list()),
        row.posting(),
    )
}
