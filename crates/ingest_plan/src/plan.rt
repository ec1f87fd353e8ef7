//! The index of a document, planned.
ghost use Rattle.std.specs.Prelude.{◌≤◌, ◌+◌, ◌*◌, length};
ghost use Rattle.ingest_plan.specs.Over.{PlansOver};
ghost use Rattle.ingest_plan.specs.Planning.{PlansIndex};
ghost use Rattle.ingest_plan.specs.Readiness.{IsReadyDevice, IsReadyOver};
ghost use Rattle.ingest_plan.specs.Rows.{AreInOrder};
ghost use Rattle.worm_device.specs.Overlays.{of_overlay};

use crate::{IndexPlace, copies_of, insert_document};
use cell_pool::Pool;
use cell_types::{Cell, Refusal, Volume};
use std::alloc::Global;
use term_tags::{ListedPosting, document_postings};
use volume_meaning::rule_of;
use word_reader::words;
use worm_device::{Device, Direct, Overlay, PlannedCells, View};

/// The index of a document, planned.
#[derive(Drop)]
pub struct PlannedIndex {
    /// How many cells its new blocks and its new node have, from the edge on.
    pub block_length: u32,
    /// A copy of each index cell that is to be written, in rising order of their addresses.
    pub journal: Vec<Cell>,
}

/// Plans the index of a document with this body where it goes: its postings, with that of its stamp on a volume of
/// stamped documents, and its bucket at the place where the path of its identifier ends. New blocks begin at the edge, and
/// may pass the device's end.
pub fn plan_index<D: Device>(
    alloc: Global,
    device: &mut D,
    volume: &Volume,
    index: &IndexPlace,
    stamp: Option<u32>,
    body: &[u8],
) -> Result<PlannedIndex, Refusal>
    requires { IsReadyDevice volume.now.geometry index.now stamp (D.state device.old) }
    ensures { PlansIndex volume.now.geometry index.now stamp body.now (D.state device.old) (D.state device.new)
        result }
{
    let terms = words(alloc, body, rule_of(volume.geometry.version()))?;
    let rows = document_postings(alloc, &terms, volume.geometry.lists(), index.slot, stamp)?;
    let mut own = PlannedCells::new(alloc);
    let mut overlay = Overlay::new(Direct::new(device), &mut own, index.edge);
    plan_over(alloc, &mut overlay, volume, index, &rows)
}

/// Plans the postings and the bucket over a view, from the edge on.
fn plan_over<V: View>(
    alloc: Global,
    overlay: &mut Overlay<'_, V>,
    volume: &Volume,
    index: &IndexPlace,
    rows: &[ListedPosting],
) -> Result<PlannedIndex, Refusal>
    requires order { AreInOrder volume.now.geometry rows.now }
    requires few { length rows.now ≤ 256 * volume.now.geometry.lists + 1 }
    requires ready { IsReadyOver volume.now.geometry index.now (of_overlay V.seen overlay.old) }
    ensures { PlansOver volume.now.geometry index.now rows.now (of_overlay V.seen overlay.old)
        (of_overlay V.seen overlay.new) result }
{
    // Known of a layout once it is asked for: it fits a device.
    let _cells = volume.geometry.cells();
    let mut pool = Pool::over(index.edge, u32::MAX);
    insert_document(overlay, &mut pool, volume, index.slot, rows, &index.end)?;
    let journal = copies_of(alloc, overlay.planned())?;
    Ok(PlannedIndex {
        block_length: pool.next() - index.edge,
        journal,
    })
}
