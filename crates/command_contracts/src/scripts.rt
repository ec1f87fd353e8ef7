//! Scripts, how a command of one begins, and replies.
ghost use Rattle.std.specs.Prelude.{◌≡◌, ◌≤◌, IfOk, OnOk, string_bytes};
ghost use Rattle.script_events.specs.Events.{IsPlanOn};
ghost use Rattle.script_events.specs.Scripts.{ReadScriptEnds};
ghost use Rattle.script_replies.specs.Beginnings.{begun_with};
ghost use Rattle.script_replies.specs.Lines.{replies_text, reply_status};
ghost use Rattle.script_replies.specs.declared.beginning.TheConstants.{MAX_REPLAYED_CELLS};
ghost use Rattle.worm_memory.specs.Device.{memory_of};

use cell_types::{NoMemory, Refusal};
use script_events::{Schedule, Script, read_script};
use script_replies::{Reply, begin_with, text_of_replies};
use std::alloc::Global;
use worm_memory::MemoryDevice;

/// `read_script`.
pub fn read_script_again(alloc: Global, text: &[u8]) -> Result<Script, Refusal>
    ensures { ReadScriptEnds text.now result }
{
    read_script(alloc, text)
}

/// `begin_with`.
pub fn begin_with_again(device: &mut MemoryDevice, plan: &Schedule) -> Result<(), NoMemory>
    requires cells { (memory_of device.old).cells ≤ MAX_REPLAYED_CELLS }
    requires inside { IsPlanOn (memory_of device.old).cells plan.now }
    ensures { OnOk result (memory_of device.new ≡ begun_with plan.now (memory_of device.old)) }
{
    begin_with(device, plan)
}

/// `Reply::status`.
pub fn status_again(reply: &Reply) -> u8
    ensures { result ≡ reply_status reply.now }
{
    reply.status()
}

/// `text_of_replies`.
pub fn text_of_replies_again(alloc: Global, replies: &[Reply]) -> Result<String, NoMemory>
    ensures { IfOk result (λ text. string_bytes text ≡ replies_text replies.now) }
{
    text_of_replies(alloc, replies)
}
