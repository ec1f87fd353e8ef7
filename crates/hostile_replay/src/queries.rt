//! Queries of a script, carried out on a device in memory: each is begun with the event's plan.
ghost use Rattle.std.specs.Prelude.{◌≡◌, ◌≤◌, IfOk, List, ℕ, length};
ghost use Rattle.worm_memory.specs.Device.{memory_of};
ghost use Rattle.script_events.specs.Events.{IsPlanOn};
ghost use Rattle.script_events.specs.declared.event.Event.TheVariants as event;
ghost use Rattle.script_replies.specs.declared.beginning.TheConstants.{MAX_REPLAYED_CELLS};
ghost use Rattle.hostile_replay.specs.Plays.{Plays};
ghost use Rattle.hostile_replay.specs.Sinks.{without_sink};

use cell_types::{NoMemory, Refusal, memory};
use document_store::Text;
use host_ports::MemorySink;
use record_query::{find, lookup_into};
use script_events::{Schedule, Sequence};
use script_replies::{Reply, begin_with};
use std::alloc::Global;
use volume_meaning::MAX_BODY_BYTES;
use word_reader::Term;
use worm_memory::{MemoryDevice, a_plan_is_kept};

/// Searches.
pub fn play_find(
    alloc: Global,
    terms: &Sequence<Term>,
    plan: &Schedule,
    device: &mut MemoryDevice,
) -> Result<Reply, NoMemory>
    requires cells { (memory_of device.old).cells ≤ MAX_REPLAYED_CELLS }
    requires inside { IsPlanOn (memory_of device.old).cells plan.now }
    requires some { 1 ≤ length terms.now }
    ensures { Plays (event.Find terms.now plan.now) device.old device.new result }
{
    a_plan_is_kept();
    begin_with(device, plan)?;
    match find(alloc, device, terms.as_slice()) {
        Ok(matches) => Ok(Reply::Found(Sequence::new(matches))),
        Err(refusal) => Ok(Reply::Refused(refusal)),
    }
}

/// Looks up.
pub fn play_lookup(
    alloc: Global,
    id: &Text,
    plan: &Schedule,
    device: &mut MemoryDevice,
) -> Result<Reply, NoMemory>
    requires cells { (memory_of device.old).cells ≤ MAX_REPLAYED_CELLS }
    requires inside { IsPlanOn (memory_of device.old).cells plan.now }
    ensures { Plays (event.Lookup id.now plan.now) device.old device.new result }
{
    a_plan_is_kept();
    begin_with(device, plan)?;
    let mut sink = MemorySink::new(alloc);
    // Where there is no room for a body, the look-up finds that out when it puts one.
    let _room = sink.reserve(MAX_BODY_BYTES as u32);
    match lookup_into(device, id.bytes(), &mut sink) {
        Ok(found) => {
            let mut body = Vec::new(alloc);
            memory::extend_from_slice(&mut body, sink.bytes())?;
            Ok(Reply::Body {
                slot: found.slot,
                body: Text::new(body),
            })
        }
        Err(refusal) => Ok(Reply::Refused(without_sink(refusal))),
    }
}

/// The refusal that a look-up into memory is answered: a sink without room is want of memory.
fn without_sink(refusal: Refusal) -> Refusal
    ensures { result ≡ without_sink refusal }
{
    match refusal {
        Refusal::SinkFault => Refusal::from(memory::lacked_elsewhere()),
        other => other,
    }
}
