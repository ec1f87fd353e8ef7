//! Events of a script, replayed on a device in memory.
ghost use Rattle.std.specs.Prelude.{◌≡◌, ◌≤◌, IfOk};
ghost use Rattle.worm_device.specs.State.{IsDevice};
ghost use Rattle.worm_memory.specs.Device.{memory_of};
ghost use Rattle.script_events.specs.Events.{AreEventsOn, IsEventOn};
ghost use Rattle.script_replies.specs.declared.beginning.TheConstants.{MAX_REPLAYED_CELLS};
ghost use Rattle.hostile_replay.specs.Worlds.{IsWorld};
ghost use Rattle.hostile_replay.specs.Plays.{Plays};

use crate::by_hand::{play_crash, play_foreign};
use crate::commands::{play_audit, play_format, play_ingest, play_recover};
use crate::queries::{play_find, play_lookup};
use cell_types::{NoMemory, memory};
use script_events::Event;
use script_replies::Reply;
use std::alloc::Global;
use worm_device::Device;
use worm_memory::MemoryDevice;

/// Replays the events in order, and answers each. The replies are those of a world, which begins with the device as it
/// was.
pub fn replay(
    alloc: Global,
    events: &[Event],
    device: &mut MemoryDevice,
) -> Result<Vec<Reply>, NoMemory>
    requires cells { (memory_of device.old).cells ≤ MAX_REPLAYED_CELLS }
    requires events { AreEventsOn (memory_of device.old).cells events.now }
    ensures { IfOk result (λ replies.
        IsWorld events.now replies.items (memory_of device.old) (memory_of device.new)) }
{
    let mut replies = Vec::new(alloc);
    for event in events {
        let reply = play(alloc, event, device)?;
        is_device(device);
        memory::push(&mut replies, reply)?;
    }
    Ok(replies)
}

/// That a device is one.
fn is_device<D: Device>(device: &D)
    ensures { IsDevice (D.state device.now) }
{}

/// Carries out an event.
fn play(alloc: Global, event: &Event, device: &mut MemoryDevice) -> Result<Reply, NoMemory>
    requires cells { (memory_of device.old).cells ≤ MAX_REPLAYED_CELLS }
    requires event { IsEventOn (memory_of device.old).cells event.now }
    ensures { Plays event.now device.old device.new result }
{
    match event {
        Event::Format {
            slots,
            lists,
            version,
            plan,
        } => play_format(*slots, *lists, *version, plan, device),
        Event::Ingest {
            id,
            stamp,
            body,
            plan,
        } => play_ingest(alloc, id, *stamp, body, plan, device),
        Event::Find { terms, plan } => play_find(alloc, terms, plan, device),
        Event::Lookup { id, plan } => play_lookup(alloc, id, plan, device),
        Event::Audit { plan } => play_audit(alloc, plan, device),
        Event::Recover { plan } => play_recover(plan, device),
        Event::Foreign { at, cell } => play_foreign(*at, *cell, device),
        Event::Crash { keep } => play_crash(keep.as_slice(), device),
    }
}
