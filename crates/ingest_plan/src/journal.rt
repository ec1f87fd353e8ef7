//! The journal of what is planned.
ghost use Rattle.std.specs.Prelude.{◌≡◌, IfOk};
ghost use Rattle.std.specs.Ordering.{nat_cmp};
ghost use Rattle.std.specs.BTreeMap.{get, values, IsOrdered};
ghost use Rattle.ingest_plan.specs.Journal.{IsJournal};

use cell_types::{Cell, NoMemory, memory};
use std::alloc::Global;
use std::collections::BTreeMap;

/// A copy of each planned cell, by rising numbers.
pub fn copies_of(alloc: Global, planned: &BTreeMap<u32, Cell>) -> Result<Vec<Cell>, NoMemory>
    ensures { IfOk result (λ journal. IsJournal (λ cell. get nat_cmp planned.now cell) journal.items) }
{
    memory::values_of(alloc, planned)
}
