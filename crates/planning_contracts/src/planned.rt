//! The index of a document, planned.
ghost use Rattle.std.specs.Prelude.{◌≤◌, ◌+◌, ◌*◌, IfOk, length};
ghost use Rattle.std.specs.BTreeMap.{get};
ghost use Rattle.std.specs.Ordering.{nat_cmp};
ghost use Rattle.ingest_plan.specs.Indexes.{Indexes};
ghost use Rattle.ingest_plan.specs.Journal.{IsJournal};
ghost use Rattle.ingest_plan.specs.Planning.{PlansIndex};
ghost use Rattle.ingest_plan.specs.Readiness.{IsReadyDevice, IsReadyIndex};
ghost use Rattle.worm_device.specs.Overlays.{of_overlay};

use cell_pool::{GrowthFault, Pool};
use cell_types::{Cell, NoMemory, Refusal, Volume};
use ingest_plan::{IndexPlace, PathEnd, PlannedIndex, copies_of, insert_document, plan_index};
use std::alloc::Global;
use std::collections::BTreeMap;
use term_tags::ListedPosting;
use worm_device::{Device, Overlay, View};

/// `plan_index`.
pub fn plan_index_again<D: Device>(
    alloc: Global,
    device: &mut D,
    volume: &Volume,
    index: &IndexPlace,
    stamp: Option<u32>,
    body: &[u8],
) -> Result<PlannedIndex, Refusal>
    requires { IsReadyDevice volume.now.geometry index.now stamp (D.state device.old) }
    ensures { PlansIndex volume.now.geometry index.now stamp body.now (D.state device.old) (D.state device.new)
        result }
{
    plan_index(alloc, device, volume, index, stamp, body)
}

/// `insert_document`.
pub fn insert_document_again<V: View>(
    overlay: &mut Overlay<'_, V>,
    pool: &mut Pool,
    volume: &Volume,
    slot: u32,
    rows: &[ListedPosting],
    end: &PathEnd,
) -> Result<(), GrowthFault>
    requires { IsReadyIndex volume.now.geometry slot rows.now end.now pool.old (of_overlay V.seen overlay.old) }
    ensures from { pool.old.next ≤ pool.new.next }
    ensures to { pool.new.next ≤ pool.old.next + 256 * length rows.now + 32 }
    ensures indexes { Indexes volume.now.geometry slot rows.now end.now pool.old.next pool.new.next
        (of_overlay V.seen overlay.old) (of_overlay V.seen overlay.new) result }
{
    insert_document(overlay, pool, volume, slot, rows, end)
}

/// `copies_of`.
pub fn copies_of_again(alloc: Global, planned: &BTreeMap<u32, Cell>) -> Result<Vec<Cell>, NoMemory>
    ensures { IfOk result (λ journal. IsJournal (λ cell. get nat_cmp planned.now cell) journal.items) }
{
    copies_of(alloc, planned)
}
