//! Cell 0, the state of a slot, also by a row that was read, of cells or of bytes, and the end of the log.
ghost use Rattle.std.specs.Prelude.{◌≡◌, ◌<◌, ◌≤◌, ◌+◌, IfOk, IfSome, length};
ghost use Rattle.cell_types.specs.Layout as layout;
ghost use Rattle.worm_device.specs.Views.{Viewed};
ghost use Rattle.commit_record.specs.LogEnds.{LogEndEnds};
ghost use Rattle.commit_record.specs.Opening.{OpenEnds};
ghost use Rattle.commit_record.specs.Partition.{HasRoom};
ghost use Rattle.commit_record.specs.SlotBytes.{IsDoneByBytes, IsSlotRowOf};
ghost use Rattle.commit_record.specs.SlotCells.{SlotOfRow};
ghost use Rattle.commit_record.specs.States.{StateEnds, stamp_cells};

use cell_types::{Cell, Evidence, Fault, Geometry, Volume};
use commit_record::{
    LogEnd, OpenRefusal, SlotState, cells_of_slot, done_stamp, end_of_log, open, slot_of_row,
    slot_state,
};
use worm_device::{Failed, View};

/// `open`.
pub fn open_again<V: View>(view: &mut V) -> Result<Volume, OpenRefusal>
    requires { 0 < (V.seen view.old).cells }
    ensures viewed { Viewed (V.seen view.old) (V.seen view.new) }
    ensures reads { (V.seen view.new).base.reads ≤ (V.seen view.old).base.reads + 1 }
    ensures ends { OpenEnds (V.seen view.old) (V.seen view.new) result }
{
    open(view)
}

/// `slot_state`.
pub fn slot_state_again<V: View>(
    view: &mut V,
    volume: &Volume,
    slot: u32,
) -> Result<SlotState, Fault>
    requires slot { slot < volume.now.geometry.slots }
    requires size { volume.now.geometry.cells ≤ (V.seen view.old).cells }
    ensures viewed { Viewed (V.seen view.old) (V.seen view.new) }
    ensures reads { (V.seen view.new).base.reads ≤ (V.seen view.old).base.reads
        + (3 + stamp_cells volume.now.geometry) }
    ensures room { IfOk result (λ state. HasRoom state) }
    ensures ends { StateEnds volume.now.geometry slot (V.seen view.old) (V.seen view.new) result }
{
    slot_state(view, volume, slot)
}

/// `slot_of_row`.
pub fn slot_of_row_again(
    geometry: &Geometry,
    slot: u32,
    row: &[Option<Cell>],
) -> Result<SlotState, Evidence>
    requires slot { slot < geometry.now.slots }
    requires four { 4 ≤ length row.now }
    ensures { SlotOfRow geometry.now slot row.now result }
{
    slot_of_row(geometry, slot, row)
}

/// `done_stamp`.
pub fn done_stamp_again(geometry: &Geometry, pool_at: u32, slot: u32, bytes: &[u8]) -> Option<u32>
    requires slot { slot < geometry.now.slots }
    requires pool { pool_at ≡ layout.pool_at geometry.now }
    requires four { 64 ≤ length bytes.now }
    ensures { IfSome result (λ seconds. IsDoneByBytes geometry.now slot bytes.now seconds) }
{
    done_stamp(geometry, pool_at, slot, bytes)
}

/// `cells_of_slot`.
pub fn cells_of_slot_again(bytes: &[u8]) -> [Option<Cell>; 4]
    requires { 64 ≤ length bytes.now }
    ensures { IsSlotRowOf bytes.now result }
{
    cells_of_slot(bytes)
}

/// `end_of_log`.
pub fn end_of_log_again<V: View>(view: &mut V, volume: &Volume) -> Result<LogEnd, Failed>
    requires { volume.now.geometry.cells ≤ (V.seen view.old).cells }
    ensures viewed { Viewed (V.seen view.old) (V.seen view.new) }
    ensures reads { (V.seen view.new).base.reads ≤ (V.seen view.old).base.reads + 26 }
    ensures ends { LogEndEnds volume.now.geometry (V.seen view.old) (V.seen view.new) result }
{
    end_of_log(view, volume)
}
