//! What stands in kept cells.
ghost use Rattle.std.specs.Prelude.{◌≡◌, ◌<◌, ◌≤◌, ◌+◌, ◌*◌, ◌^◌, ◌↔◌, ℕ, IsTrue, Some, length, slice_get};
ghost use Rattle.log_audit.specs.Cells.{shown_by, AreAllBetween, AreBlankBetween, AreRising, AreOnlyBetween};
ghost use Rattle.log_audit.specs.AllRows.{all_rows};
ghost use Rattle.log_audit.specs.Kept.{image_of_kept, count_of};
ghost use Rattle.log_audit.specs.declared.written.WrittenCell.{WrittenCell};

use crate::KeptCells;
use crate::chunked::ChunkedRows;
use crate::written::{PAGE_CELLS, WrittenCell};
use cell_types::Cell;

impl KeptCells {
    /// What was found in a cell, `None` where it was blank or is none of the kept ones.
    pub fn at(&self, number: u32) -> Option<Cell>
        ensures { result ≡ image_of_kept self.now number }
    {
        let page = (number / PAGE_CELLS) as usize;
        let from = self.first_of(page);
        let to = self.last_of(page);
        held_between(&self.rows, from, to, number)
    }

    /// Whether no written cell is kept from one number on and below another.
    pub fn are_blank(&self, from: u32, behind: u32) -> bool
        ensures { IsTrue result ↔ AreBlankBetween (image_of_kept self.now) from behind }
    {
        let low = self.first_of((from / PAGE_CELLS) as usize);
        let high = self.last_of((behind / PAGE_CELLS) as usize);
        no_row_between(&self.rows, low, high, from, behind)
    }

    /// How many cells are kept, blank ones too.
    pub fn count(&self) -> u32
        ensures { result ≡ count_of self.now }
    {
        self.count
    }

    /// No written cell of the page stands before this place.
    fn first_of(&self, page: usize) -> usize
        ensures { (k : ℕ) (row : WrittenCell) → slice_get (all_rows self.now.rows) k ≡ Some row
            → page * PAGE_CELLS ≤ row.number → result ≤ k }
    {
        match self.starts.get(page) {
            Some(start) => *start as usize,
            None => 0,
        }
    }

    /// Each written cell of the page stands before this place.
    fn last_of(&self, page: usize) -> usize
        requires { page < 2 ^ 32 }
        ensures within { result ≤ length (all_rows self.now.rows) }
        ensures before { (k : ℕ) (row : WrittenCell) → slice_get (all_rows self.now.rows) k ≡ Some row
            → row.number < page * PAGE_CELLS + PAGE_CELLS → k < result }
    {
        match self.starts.get(page + 1) {
            Some(start) => *start as usize,
            None => self.rows.count(),
        }
    }
}

/// How often a place is guessed before it is found by bisection.
const GUESSES: u32 = 2;

/// What the written cell of a number holds, where it can stand at these places alone. Where cells are written without a
/// gap, it stands as far from any of them as its number lies from that one's: so that is looked at first. Bisection
/// ends what gaps leave open, in 8 looks more at most.
fn held_between(rows: &ChunkedRows, from: usize, to: usize, number: u32) -> Option<Cell>
    requires rising { AreRising (all_rows rows.now) }
    requires places { AreOnlyBetween (all_rows rows.now) from to number }
    requires within { to ≤ length (all_rows rows.now) }
    ensures { result ≡ shown_by (all_rows rows.now) number }
{
    let mut low = from;
    let mut high = to;
    let mut guess = from.saturating_add((number % PAGE_CELLS) as usize);
    let mut looks: u32 = 0;
    while low < high {
        let middle = place_to_ask(low, high, guess, looks < GUESSES);
        let Some(row) = rows.row_at(middle) else {
            unreachable!();
        };
        if row.number == number {
            return Some(cell_of(&row));
        }
        looks = looks.saturating_add(1);
        if row.number < number {
            low = middle + 1;
            guess = middle.saturating_add((number - row.number) as usize);
        } else {
            high = middle;
            guess = middle.saturating_sub((row.number - number) as usize);
        }
    }
    None
}

/// Whether no written cell has a number from one on and below another, where those that have stand at these places alone.
fn no_row_between(rows: &ChunkedRows, from: usize, to: usize, first: u32, behind: u32) -> bool
    requires rising { AreRising (all_rows rows.now) }
    requires places { AreAllBetween (all_rows rows.now) from to first behind }
    requires within { to ≤ length (all_rows rows.now) }
    ensures { IsTrue result ↔ AreBlankBetween (shown_by (all_rows rows.now)) first behind }
{
    let mut low = from;
    let mut high = to;
    while low < high {
        let middle = low + (high - low) / 2;
        let Some(row) = rows.row_at(middle) else {
            unreachable!();
        };
        if row.number < first {
            low = middle + 1;
        } else if row.number < behind {
            return false;
        } else {
            high = middle;
        }
    }
    true
}

/// The guess, where it is one and lies between the two, or else the place in the middle.
fn place_to_ask(low: usize, high: usize, guess: usize, is_guessed: bool) -> usize
    requires { low < high }
    ensures from { low ≤ result }
    ensures below { result < high }
{
    if is_guessed && low <= guess && guess < high {
        return guess;
    }
    low + (high - low) / 2
}

/// What it holds.
fn cell_of(row: &WrittenCell) -> Cell
    ensures { result ≡ row.now.cell }
{
    row.cell
}
