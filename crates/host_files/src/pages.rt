//! Pages of a file that are held in memory: the sixteen that were used last.
//!
//! A page is 256 cells, and begins at a multiple of 4,096 bytes of the file. The last one may be short. A page is read
//! whole where a cell of it is read, and takes the place of the one that was used longest ago:
//!
//!     cell 300      page 1      place 44      bytes 4,800 to 4,815 of the file
//!
//! What is held is what the file gave, or what was written through here since. What somebody else writes into the
//! file meanwhile shows once the page is read anew.
ghost use Rattle.std.specs.Prelude.{◌≡◌, ◌≢◌, ◌<◌, ◌≤◌, ◌+◌, ◌*◌, ◌/◌, ◌%◌, ℕ, true, List, None, Some, slice_get, vec_len, length, IfOk, IfSome, IsNone, OnOk, OnErr};
ghost use Rattle.worm_device.specs.ReadBytes.{cell_bytes};
ghost use Rattle.host_files.specs.Cells.{cell_in};
ghost use Rattle.host_files.specs.File.{Told, AsksFile};
ghost use Rattle.host_files.specs.Pages.{PageHolds, ArePagesApart};

use crate::HostFile;
use crate::page::{PAGE_BYTES, PAGE_CELLS, cell_at, cells_on_page, copy_cells, put_at};
use cell_types::{Cell, NoMemory, memory};
use std::alloc::Global;
use worm_device::Failed;

/// How many pages are held.
const PAGES: usize = 16;

/// How many hints are kept of where a page is held.
const HINTS: usize = 64;

/// A page, or room for one.
#[derive(Clone, Copy)]
pub(crate) struct Page {
    /// The number of the page in the file, where one is held.
    number: Option<u32>,
    /// When it was used last.
    used: u64,
    bytes: [u8; PAGE_BYTES],
}

impl Page {
    /// Reads a page of a file of so many cells.
    fn load<F: HostFile>(&mut self, file: &mut F, cells: u32, number: u32) -> Result<(), Failed>
        requires some { 256 * number < cells }
        requires inside { 16 * cells ≤ (F.state file.old).size }
        ensures asks { AsksFile (F.state file.old) (F.state file.new) result }
        ensures holds { OnOk result ((told : Told) → (F.state file.old).told ≡ Some told
            → PageHolds cells told.now.bytes self.new) }
        ensures number { OnOk result (self.new.number ≡ Some number) }
        ensures nothing { OnErr result (self.new.number ≡ None) }
    {
        let held = (cells - PAGE_CELLS * number).min(PAGE_CELLS);
        // A read that fails may have changed some of the bytes, so they are no page until it is done.
        self.number = None;
        self.used = 0;
        let from = u64::from(number) * PAGE_BYTES as u64;
        file.read_at(&mut self.bytes[..16 * held as usize], from)?;
        self.number = Some(number);
        Ok(())
    }
}

/// Memory for sixteen pages, and what is held in it.
#[derive(Drop)]
pub struct Pages {
    pages: Vec<Page>,
    uses: u64,
    /// Where a page may be held, by the last bits of its number. Whoever takes a hint looks whether it is.
    hints: [u8; HINTS],
    ghost sixteen: { vec_len pages ≡ 16 },
    ghost apart: { ArePagesApart pages.items },
}

impl Pages {
    ghost use Rattle.host_files.specs.Pages.{PagesHold, IsOn, IsNowhere, HoldNothing, HoldOn, HoldPut, IsToldOf, AreToldOf, AreToldBytes};
    ghost use Rattle.host_files.specs.declared.pages.Page.{Page};

    /// Takes the memory, some 64 KiB. Nothing is held.
    pub fn new(alloc: Global) -> Result<Pages, NoMemory> {
        let room = Page {
            number: None,
            used: 0,
            bytes: [0; PAGE_BYTES],
        };
        let Ok(pages) = vec![in alloc; room; PAGES] else {
            return Err(memory::lacked_elsewhere());
        };
        Ok(Pages {
            pages,
            uses: 0,
            hints: [0; HINTS],
        })
    }

    /// Holds nothing from now on.
    pub(crate) fn clear(&mut self)
        ensures { HoldNothing self.new.pages.items }
    {
        for frame in 0..PAGES {
            let page = &mut self.pages[frame];
            page.number = None;
            page.used = 0;
        }
    }

    /// Where the page is held, if there is a hint of it.
    fn hinted(&self, number: u32) -> Option<usize>
        ensures { IfSome result (λ frame. IsOn self.now.pages.items frame number) }
    {
        let frame = usize::from(self.hints[number as usize % HINTS]) % PAGES;
        if self.pages[frame].number == Some(number) {
            return Some(frame);
        }
        None
    }

    /// Where the page is held.
    fn find(&self, number: u32) -> Option<usize>
        ensures found { IfSome result (λ frame. IsOn self.now.pages.items frame number) }
        ensures none { IsNone result → IsNowhere self.now.pages.items number }
    {
        if let Some(frame) = self.hinted(number) {
            return Some(frame);
        }
        for frame in 0..PAGES {
            if self.pages[frame].number == Some(number) {
                return Some(frame);
            }
        }
        None
    }

    /// Where the page is held that was used longest ago, or where none is.
    fn oldest(&self) -> usize
        ensures { result < 16 }
    {
        let mut oldest = 0;
        for frame in 1..PAGES {
            if self.pages[frame].used < self.pages[oldest].used {
                oldest = frame;
            }
        }
        oldest
    }

    /// Reads a page of a file of so many cells, where it is not held, and answers where it is now.
    fn fill<F: HostFile>(&mut self, file: &mut F, cells: u32, number: u32) -> Result<usize, Failed>
        requires some { 256 * number < cells }
        requires inside { 16 * cells ≤ (F.state file.old).size }
        requires new { IsNowhere self.old.pages.items number }
        ensures asks { AsksFile (F.state file.old) (F.state file.new) result }
        ensures on { IfOk result (λ frame. IsOn self.new.pages.items frame number) }
        ensures holds { HoldOn cells (F.state file.old).told self.old.pages.items self.new.pages.items }
    {
        let frame = self.oldest();
        self.pages[frame].load(file, cells, number)?;
        Ok(frame)
    }

    /// The page that is held here is used now.
    fn touch(&mut self, frame: usize, number: u32)
        requires { frame < 16 }
        ensures on { IsOn self.old.pages.items frame number → IsOn self.new.pages.items frame number }
        ensures holds { (cells : ℕ) (bytes : List ℕ) → PagesHold cells bytes self.old.pages.items
            → PagesHold cells bytes self.new.pages.items }
    {
        self.uses = self.uses.saturating_add(1);
        self.hints[number as usize % HINTS] = frame as u8;
        let page = &mut self.pages[frame];
        page.used = self.uses;
    }

    /// Where a page of a file of so many cells is held, which is used now. It is read where it is not held yet.
    fn hold<F: HostFile>(&mut self, file: &mut F, cells: u32, number: u32) -> Result<usize, Failed>
        requires some { 256 * number < cells }
        requires inside { 16 * cells ≤ (F.state file.old).size }
        ensures asks { AsksFile (F.state file.old) (F.state file.new) result }
        ensures on { IfOk result (λ frame. IsOn self.new.pages.items frame number) }
        ensures holds { HoldOn cells (F.state file.old).told self.old.pages.items self.new.pages.items }
    {
        if let Some(frame) = self.find(number) {
            self.touch(frame, number);
            return Ok(frame);
        }
        let frame = self.fill(file, cells, number)?;
        self.touch(frame, number);
        Ok(frame)
    }

    /// What stands in a cell of a file of so many cells, from its page: `None` where it is blank.
    pub(crate) fn read<F: HostFile>(
        &mut self,
        file: &mut F,
        cells: u32,
        at: u32,
    ) -> Result<Option<Cell>, Failed>
        requires some { at < cells }
        requires inside { 16 * cells ≤ (F.state file.old).size }
        ensures asks { AsksFile (F.state file.old) (F.state file.new) result }
        ensures answers { IfOk result (λ found. IsToldOf cells at (F.state file.old).told self.old.pages.items found) }
        ensures holds { HoldOn cells (F.state file.old).told self.old.pages.items self.new.pages.items }
    {
        let frame = self.hold(file, cells, at / PAGE_CELLS)?;
        let page = &self.pages[frame];
        Ok(cell_at(&page.bytes, (at % PAGE_CELLS) as u8))
    }

    /// What stands in neighbouring cells of a file of so many cells, as many as there is room for. Each of their pages
    /// is looked for once.
    pub(crate) fn read_row<F: HostFile>(
        &mut self,
        file: &mut F,
        cells: u32,
        at: u32,
        found: &mut [Option<Cell>],
    ) -> Result<(), Failed>
        requires some { at + length found.old ≤ cells }
        requires inside { 16 * cells ≤ (F.state file.old).size }
        ensures asks { AsksFile (F.state file.old) (F.state file.new) result }
        ensures size { length found.new ≡ length found.old }
        ensures answers { OnOk result (AreToldOf cells at (F.state file.old).told self.old.pages.items found.new) }
        ensures holds { HoldOn cells (F.state file.old).told self.old.pages.items self.new.pages.items }
    {
        let mut done = 0;
        while done < found.len() {
            let cell = at + done as u32;
            let frame = self.hold(file, cells, cell / PAGE_CELLS)?;
            let page = &self.pages[frame];
            let end = done + cells_on_page(cell, found.len() - done);
            copy_cells(&page.bytes, cell % PAGE_CELLS, &mut found[done..end]);
            done = end;
        }
        Ok(())
    }

    /// Copies the bytes of neighbouring cells, where all of them lie on one page and a hint tells where it is held.
    /// Says whether it did.
    pub(crate) fn copy_held(&self, at: u32, bytes: &mut [u8]) -> bool
        requires whole { length bytes.old % 16 ≡ 0 }
        ensures size { length bytes.new ≡ length bytes.old }
        ensures held { result ≡ true → AreToldBytes at self.now.pages.items bytes.new }
    {
        let place = (at % PAGE_CELLS) as usize;
        if place + bytes.len() / 16 > PAGE_CELLS as usize {
            return false;
        }
        let Some(frame) = self.hinted(at / PAGE_CELLS) else {
            return false;
        };
        let page = &self.pages[frame];
        let from = 16 * place;
        bytes.copy_from_slice(&page.bytes[from..from + bytes.len()]);
        true
    }

    /// The cell stands in the file now.
    pub(crate) fn put(&mut self, at: u32, cell: Cell)
        ensures { HoldPut at cell self.old.pages.items self.new.pages.items }
    {
        if let Some(frame) = self.find(at / PAGE_CELLS) {
            put_at(&mut self.pages[frame].bytes, (at % PAGE_CELLS) as u8, cell);
        }
    }

    /// It is not known what stands in the cell, so its page is held no longer.
    pub(crate) fn forget(&mut self, at: u32)
        ensures gone { IsNowhere self.new.pages.items (at / 256) }
        ensures same { (cells : ℕ) (bytes : List ℕ) → PagesHold cells bytes self.old.pages.items
            → PagesHold cells bytes self.new.pages.items }
        ensures put { (piece : List ℕ) → HoldPut at piece self.old.pages.items self.new.pages.items }
    {
        if let Some(frame) = self.find(at / PAGE_CELLS) {
            let page = &mut self.pages[frame];
            page.number = None;
            page.used = 0;
        }
    }
}
