//! Commands of a script, carried out on a device in memory: each is begun with the event's plan.
ghost use Rattle.std.specs.Prelude.{◌≡◌, ◌≤◌, IfOk};
ghost use Rattle.cell_types.specs.declared.geometry.TheConstants.{FIRST_VERSION, NEWEST_VERSION};
ghost use Rattle.volume_meaning.specs.Documents.{IsBody, IsIdentifier};
ghost use Rattle.worm_memory.specs.Device.{memory_of};
ghost use Rattle.script_events.specs.Events.{IsPlanOn};
ghost use Rattle.script_events.specs.declared.event.Event.TheVariants as event;
ghost use Rattle.script_replies.specs.declared.beginning.TheConstants.{MAX_REPLAYED_CELLS};
ghost use Rattle.hostile_replay.specs.Plays.{Plays};

use cell_types::NoMemory;
use document_store::Text;
use ingest_engine::{format_volume, ingest};
use recovery_engine::settle;
use script_events::Schedule;
use script_replies::{Reply, begin_with};
use std::alloc::Global;
use volume_audit::audit;
use worm_memory::{MemoryDevice, a_plan_is_kept};

/// Formats.
pub fn play_format(
    slots: u32,
    lists: u16,
    version: u8,
    plan: &Schedule,
    device: &mut MemoryDevice,
) -> Result<Reply, NoMemory>
    requires cells { (memory_of device.old).cells ≤ MAX_REPLAYED_CELLS }
    requires inside { IsPlanOn (memory_of device.old).cells plan.now }
    requires from { FIRST_VERSION ≤ version }
    requires to { version ≤ NEWEST_VERSION }
    ensures { Plays (event.Format slots lists version plan.now) device.old device.new result }
{
    a_plan_is_kept();
    begin_with(device, plan)?;
    match format_volume(device, slots, lists, version) {
        Ok(()) => Ok(Reply::Formatted),
        Err(refusal) => Ok(Reply::Refused(refusal)),
    }
}

/// Ingests, with this stamp if there is one.
pub fn play_ingest(
    alloc: Global,
    id: &Text,
    stamp: Option<u32>,
    body: &Text,
    plan: &Schedule,
    device: &mut MemoryDevice,
) -> Result<Reply, NoMemory>
    requires cells { (memory_of device.old).cells ≤ MAX_REPLAYED_CELLS }
    requires inside { IsPlanOn (memory_of device.old).cells plan.now }
    requires identifier { IsIdentifier id.now }
    requires body { IsBody body.now }
    ensures { Plays (event.Ingest id.now stamp body.now plan.now) device.old device.new result }
{
    a_plan_is_kept();
    begin_with(device, plan)?;
    match ingest(alloc, device, id.bytes(), stamp, body.bytes()) {
        Ok(slot) => Ok(Reply::Acknowledged(slot)),
        Err(refusal) => Ok(Reply::Refused(refusal)),
    }
}

/// Settles.
pub fn play_recover(plan: &Schedule, device: &mut MemoryDevice) -> Result<Reply, NoMemory>
    requires cells { (memory_of device.old).cells ≤ MAX_REPLAYED_CELLS }
    requires inside { IsPlanOn (memory_of device.old).cells plan.now }
    ensures { Plays (event.Recover plan.now) device.old device.new result }
{
    a_plan_is_kept();
    begin_with(device, plan)?;
    match settle(device) {
        Ok(ready) => Ok(Reply::Settled(ready.step)),
        Err(refusal) => Ok(Reply::Refused(refusal)),
    }
}

/// Audits.
pub fn play_audit(
    alloc: Global,
    plan: &Schedule,
    device: &mut MemoryDevice,
) -> Result<Reply, NoMemory>
    requires cells { (memory_of device.old).cells ≤ MAX_REPLAYED_CELLS }
    requires inside { IsPlanOn (memory_of device.old).cells plan.now }
    ensures { Plays (event.Audit plan.now) device.old device.new result }
{
    a_plan_is_kept();
    begin_with(device, plan)?;
    match audit(alloc, device) {
        Ok(report) => Ok(Reply::Sound(report)),
        Err(refusal) => Ok(Reply::Refused(refusal)),
    }
}
