//! The search of one list of a volume.
ghost use Rattle.std.specs.Prelude.{◌≡◌, ◌<◌};
ghost use Rattle.cell_types.specs.Layout.{all_lists};
ghost use Rattle.jump_index.specs.Searches.{FindsGeq};
ghost use Rattle.posting_list.specs.Keeping.{KeepsSearch};
ghost use Rattle.posting_list.specs.Searches.{head_of, within};

use crate::Reach;
use cell_types::Fault;
use jump_block::Entry;
use jump_index::{Bounds, KeptSearch, find_geq_from_kept};
use worm_device::View;

/// The first entry of a list at or past a key, with what is kept of the list from one search to the next. The time list, where
/// there is one, is the last. Where the bounds end behind the volume's cells, they end with these. At most 4,096 reads.
pub fn find_in_list<V: View>(
    view: &mut V,
    kept: &mut KeptSearch,
    reach: &Reach,
    list: u16,
    key: u32,
) -> Result<Option<Entry>, Fault>
    requires size { reach.now.volume.geometry.cells ≡ (V.seen view.old).cells }
    requires list { list < all_lists reach.now.volume.geometry }
    requires kept { KeepsSearch (V.seen view.old) kept.old }
    ensures kept { KeepsSearch (V.seen view.new) kept.new }
    ensures finds { FindsGeq (within reach.now) (head_of reach.now list) key (V.seen view.old) (V.seen view.new)
        result }
{
    let geometry = reach.volume.geometry;
    let bounds = Bounds {
        pool: reach.bounds.pool,
        edge: reach.bounds.edge.min(geometry.cells()),
    };
    find_geq_from_kept(view, kept, geometry.list_at(list), key, bounds)
}
