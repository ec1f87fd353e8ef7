//! Cells in a list, by rising address.
ghost use Rattle.std.specs.Prelude.{◌≡◌, ◌≤◌, ◌^◌, ℕ, List, [], length, map, ◌++◌, None, Some, IfNone, IfSome, IsSome, OnErr, OnOk};
ghost use Rattle.std.specs.BTreeMap.{insert_entry};
ghost use Rattle.std.specs.Ordering.{nat_cmp};
ghost use Rattle.receipt_text.specs.Form.{cell_line, text_of_lines};
ghost use Rattle.receipt_text.specs.Listed.{AreListed, ListsAlso, listed_image};

use crate::printing::{line_of_cell, print_line};
use cell_types::{Cell, NoMemory, memory};
use std::alloc::Global;
use std::collections::BTreeMap;
use std::marker::Model;

/// A cell that is listed.
#[derive(Clone, Copy)]
pub struct ListedCell {
    pub at: u32,
    pub value: Cell,
}

/// Written cells by rising address, each address once. Contracts see the list of addresses and values, and by
/// `listed_image` the image of exactly these cells.
#[derive(Drop)]
pub struct ListedCells {
    cells: BTreeMap<u32, Cell>,
}

impl Model for ListedCells {
    ghost use Rattle.std.specs.Prelude.{◌^◌, List, ℕ};
    ghost use Rattle.receipt_text.specs.Listed.{AreListed};

    ghost Value = { List (ℕ × List ℕ) };

    ghost view = { λ l. l.cells.entries };

    ghost invariant = { λ l. AreListed (2 ^ 32) l.cells.entries };
}

impl ListedCells {
    /// No cell. It takes no memory.
    pub fn new(alloc: Global) -> ListedCells
        ensures { result ≡ [] }
    {
        ListedCells {
            cells: BTreeMap::new(alloc),
        }
    }

    /// Lists a cell, in the place of one that is listed at its address. Without memory nothing has changed.
    pub fn add(&mut self, at: u32, value: Cell) -> Result<(), NoMemory>
        ensures image { OnOk result (ListsAlso at value self.old self.new) }
        ensures entries { OnOk result (self.new ≡ insert_entry nat_cmp self.old at value) }
        ensures unchanged { OnErr result (self.new ≡ self.old) }
    {
        // Known of a cell once its bytes are asked for: there are sixteen, and not all of them are zero.
        let _bytes = value.bytes();
        let _replaced = memory::insert(&mut self.cells, at, value)?;
        Ok(())
    }

    /// How many cells are listed.
    pub fn len(&self) -> usize
        ensures count { result ≡ length self.now }
        ensures listed { AreListed (2 ^ 32) self.now }
    {
        self.cells.len()
    }

    /// The value that is listed for an address, `None` where none is.
    pub fn at(&self, at: u32) -> Option<Cell>
        ensures { result ≡ listed_image self.now at }
    {
        self.cells.get(&at).copied()
    }

    /// The first listed cell from this address on, `None` where none is.
    pub fn first_from(&self, next: u32) -> Option<ListedCell>
        ensures some { IfSome result (λ e. listed_image self.now e.at ≡ Some e.value) }
        ensures from { IfSome result (λ e. next ≤ e.at) }
        ensures least { IfSome result (λ e. (q : ℕ) → next ≤ q → IsSome (listed_image self.now q) → e.at ≤ q) }
        ensures none { IfNone result ((q : ℕ) → next ≤ q → listed_image self.now q ≡ None) }
    {
        let (at, value) = self.cells.range(next..).next()?;
        Some(ListedCell {
            at: *at,
            value: *value,
        })
    }

    /// Appends the line of each cell to the text. Without memory some of them may be missing.
    pub(crate) fn print(&self, alloc: Global, text: &mut Vec<u8>) -> Result<(), NoMemory>
        ensures { OnOk result (text.new.items ≡ text.old.items ++ text_of_lines (map cell_line self.now)) }
    {
        for (at, value) in self.cells.iter() {
            let line = line_of_cell(alloc, *at, *value)?;
            print_line(text, &line)?;
        }
        Ok(())
    }
}
