//! A view that keeps what it has read.
ghost use Rattle.read_cache.specs.Keeping.{KeepsCells, keeps_cells_prop};

use crate::CellCache;
use worm_device::View;

/// What another view shows. Written cells that were read one at a time are kept, as many as there is memory for.
/// The view and the memory are lent to it.
#[derive(Drop)]
pub struct Cached<'a, V: View> {
    pub view: &'a mut V,
    pub cache: &'a mut CellCache,
    ghost kept: { KeepsCells (V.seen view.now) cache.now } by { keeps_cells_prop (V.seen view.now) cache.now },
}

impl<'a, V: View> Cached<'a, V> {
    ghost use Rattle.std.specs.Prelude.{◌≡◌};
    ghost use Rattle.read_cache.specs.Keeping.{most_kept};

    /// Over this view, with this memory. Nothing is kept yet.
    pub fn new(view: &'a mut V, cache: &'a mut CellCache) -> Cached<'a, V>
        ensures same_loan { result.view.ghost_name ≡ view.entry.ghost_name }
        ensures view { result.view.now ≡ view.old }
        ensures most { most_kept result.cache.now ≡ most_kept cache.old }
    {
        // Cells that are still there may be those of another view.
        cache.forget();
        Cached { view, cache }
    }
}
