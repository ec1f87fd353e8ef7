//! A pool of free cells, and what it grants.
ghost use Rattle.std.specs.Prelude.{◌≡◌, ◌<◌, ◌≤◌, ◌↔◌, IsNone, IfSome, IfNone};

/// The cells from `next` up to `end`, which nobody has yet.
#[derive(Clone, Copy)]
pub struct Pool {
    /// The number of the first free cell.
    pub next: u32,
    /// The number behind the last one.
    pub end: u32,
    ghost within: { next ≤ end },
}

impl Pool {
    ghost use Rattle.cell_pool.specs.Grants.{TakesFront, free_cells};

    /// The pool of the cells from one up to another.
    pub fn over(next: u32, end: u32) -> Pool
        requires { next ≤ end }
        ensures next { result.next ≡ next }
        ensures end { result.end ≡ end }
    {
        Pool { next, end }
    }

    /// The number of the first free cell, where the next grant begins.
    pub fn next(&self) -> u32
        ensures { result ≡ self.now.next }
    {
        self.next
    }

    /// How many cells are free.
    pub fn room(&self) -> u32
        ensures { result ≡ free_cells self.now }
    {
        self.end - self.next
    }

    /// Grants the first `size` free cells, and answers where they begin; `None` where there are fewer, and then the pool
    /// is as it was.
    pub fn grant(&mut self, size: u32) -> Option<u32>
        requires { 1 ≤ size }
        ensures full { IsNone result ↔ (free_cells self.old < size) }
        ensures granted { IfSome result (TakesFront self.old self.new size) }
        ensures unchanged { IfNone result (self.new ≡ self.old) }
    {
        if size > self.room() {
            return None;
        }
        let at = self.next;
        self.next += size;
        Some(at)
    }
}
