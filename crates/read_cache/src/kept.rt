//! Kept cells, by their numbers, of which the one that was used longest ago makes room.
ghost use Rattle.std.specs.Prelude.{◌≡◌, nat_eq};
ghost use Rattle.std.specs.Map.{lookup};
ghost use Rattle.read_cache.specs.Keeping.{HasNoOtherEntry, PutsEntry};

use cell_types::Cell;
use lru::LruCache;

/// The kept cell of this number, which is now the one that was used last.
pub(crate) fn kept_cell(cells: &mut LruCache<u32, Cell>, at: u32) -> Option<Cell>
    ensures found { result ≡ lookup (nat_eq at) cells.old.entries }
    ensures others { HasNoOtherEntry cells.old.entries cells.new.entries }
{
    // Mostly none is kept, and a look at the map takes longer than this.
    if cells.is_empty() {
        return None;
    }
    cells.get(&at).copied()
}

/// Keeps a cell under its number. Where there is no room for it, the one that was used longest ago makes room; where
/// there is no memory, nothing is kept anew.
pub(crate) fn keep(cells: &mut LruCache<u32, Cell>, at: u32, cell: Cell)
    ensures { PutsEntry at cell cells.old.entries cells.new.entries }
{
    // A cell that is not kept is read below when it is asked for again.
    let _ = cells.put(at, cell);
}
