//! The memory of kept cells.
use crate::kept::{keep, kept_cell};
use crate::recent::{PLACES, Recent, cell_of, no_cells, place_of};
use cell_types::{Cell, NoMemory, memory};
use lru::LruCache;
use std::alloc::Global;
use std::num::NonZeroUsize;

/// How often a cell is asked for again before it is kept behind the places.
const OFTEN: u8 = 64;

/// Memory for cells of a view, by their numbers. It is lent to one view after another, and each begins with none.
#[derive(Drop)]
pub struct CellCache {
    /// How many places cells that were read lately have: none where there is memory for few cells.
    pub(crate) places: u32,
    /// Those places.
    pub(crate) recent: [Recent; PLACES],
    /// The others, the one that was used longest ago first to go.
    pub(crate) cells: LruCache<u32, Cell>,
}

impl CellCache {
    ghost use Rattle.std.specs.Prelude.{◌≡◌, ◌≤◌, IfOk};
    ghost use Rattle.read_cache.specs.Keeping.{HasNoOther, KeepsOneMore, forgotten, kept_in, most_kept};

    /// Memory for at most so many cells. Room for most of them is taken when they are kept, so that few cells take
    /// little.
    pub fn new(alloc: Global, capacity: u32) -> Result<CellCache, NoMemory>
        requires some { 1 ≤ capacity }
        ensures most { IfOk result (λ cache. most_kept cache ≡ capacity) }
    {
        let places = if capacity > PLACES as u32 {
            PLACES as u32
        } else {
            0
        };
        let Some(most) = NonZeroUsize::new((capacity - places) as usize) else {
            unreachable!();
        };
        let cells = LruCache::sparse(alloc, most).map_err(|_| memory::lacked_elsewhere())?;
        Ok(CellCache {
            places,
            recent: no_cells(),
            cells,
        })
    }

    /// Keeps no cell any more.
    pub(crate) fn forget(&mut self)
        ensures { self.new ≡ forgotten self.old }
    {
        self.recent = no_cells();
        self.cells.clear();
    }

    /// The kept cell of this number. One that is asked for often is kept behind the places as well, where it stays when
    /// another cell takes its place.
    pub(crate) fn kept(&mut self, at: u32) -> Option<Cell>
        ensures found { result ≡ kept_in self.old at }
        ensures others { HasNoOther self.old self.new }
    {
        let place = place_of(at);
        let held = self.recent[place];
        let Some(cell) = cell_of(&held, at) else {
            return kept_cell(&mut self.cells, at);
        };
        self.recent[place] = Recent {
            at,
            cell: held.cell,
            asked: held.asked.saturating_add(1),
        };
        if held.asked == OFTEN {
            keep(&mut self.cells, at, cell);
        }
        Some(cell)
    }

    /// Keeps a cell under its number.
    pub(crate) fn keep(&mut self, at: u32, cell: Cell)
        ensures { KeepsOneMore at cell self.old self.new }
    {
        if self.places == 0 {
            keep(&mut self.cells, at, cell);
            return;
        }
        let place = place_of(at);
        self.recent[place] = Recent {
            at,
            cell: Some(cell),
            asked: 0,
        };
    }
}
