//! The command `replay`.
ghost use Rattle.std.specs.Prelude.{◌≡◌, List, IfOk, string_bytes};
ghost use Rattle.script_events.specs.Events.{IsInLimits};
ghost use Rattle.script_replies.specs.Lines.{replies_text};
ghost use Rattle.script_replies.specs.declared.reply.Reply.{Reply};
ghost use Rattle.volume_commands.specs.Ports.{ports_of};
ghost use Rattle.record_top.specs.Replaying.{DoesReplay, IsReplayOf};

use cell_types::NoMemory;
use command_line::put_text;
use host_ports::{Sink, Source};
use hostile_replay::replay;
use script_events::{Script, read_script, scripts_are_in_limits};
use script_replies::text_of_replies;
use std::alloc::Global;
use volume_commands::{Outcome, take_input};
use volume_meaning::MAX_BODY_BYTES;
use worm_device::Device;
use worm_memory::MemoryDevice;

/// Replays the script that the source gives, on a device in memory of its own, and puts out the replies. The text is
/// made before its first byte goes out. The device that is handed in is left alone.
pub fn replay_script<D: Device, S: Source, K: Sink>(
    alloc: Global,
    _device: &mut D,
    source: &mut S,
    sink: &mut K,
) -> Outcome
    ensures { DoesReplay (ports_of (D.state _device.old) (S.state source.old) (K.state sink.old))
        (ports_of (D.state _device.new) (S.state source.new) (K.state sink.new)) result }
{
    let text = take_input(alloc, source, MAX_BODY_BYTES)?;
    let script = read_script(alloc, &text)?;
    scripts_are_in_limits();
    let lines = lines_of(alloc, &script)?;
    put_text(sink, lines.as_bytes())?;
    Ok(())
}

/// The text of the replies to the script's events.
fn lines_of(alloc: Global, script: &Script) -> Result<String, NoMemory>
    requires { IsInLimits script.now }
    ensures { IfOk result (λ text. (replies : List Reply) × IsReplayOf script.now replies
        × (string_bytes text ≡ replies_text replies)) }
{
    let mut device = MemoryDevice::new(alloc, script.cells)?;
    let replies = replay(alloc, script.events.as_slice(), &mut device)?;
    text_of_replies(alloc, &replies)
}
