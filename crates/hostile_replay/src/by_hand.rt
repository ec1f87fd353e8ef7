//! What others do between two commands, and crashes.
ghost use Rattle.std.specs.Prelude.{◌≡◌, ◌≤◌, ◌<◌, IfOk};
ghost use Rattle.worm_memory.specs.Device.{memory_of};
ghost use Rattle.script_events.specs.declared.event.Event.TheVariants as event;
ghost use Rattle.script_replies.specs.declared.beginning.TheConstants.{MAX_REPLAYED_CELLS};
ghost use Rattle.hostile_replay.specs.Turns.{CrashAnswers};
ghost use Rattle.hostile_replay.specs.Plays.{Plays};
ghost use Rattle.hostile_replay.specs.Sinks.{reply_of_foreign};

use cell_types::{Cell, NoMemory, memory};
use script_replies::{Reply, begin_by_hand};
use worm_device::Written;
use worm_memory::MemoryDevice;

/// Somebody else writes.
pub fn play_foreign(at: u32, cell: Cell, device: &mut MemoryDevice) -> Result<Reply, NoMemory>
    requires cells { (memory_of device.old).cells ≤ MAX_REPLAYED_CELLS }
    requires inside { at < (memory_of device.old).cells }
    ensures { Plays (event.Foreign at cell) device.old device.new result }
{
    begin_by_hand(device)?;
    let Ok(written) = device.foreign(at, cell) else {
        return Err(memory::lacked_elsewhere());
    };
    Ok(reply_of_foreign(written))
}

/// The reply to a foreign write.
fn reply_of_foreign(written: Written) -> Reply
    ensures { result ≡ reply_of_foreign written }
{
    match written {
        Written::Done => Reply::ForeignDone,
        Written::Taken(found) => Reply::ForeignTaken(found),
    }
}

/// A crash.
pub fn play_crash(keep: &[u32], device: &mut MemoryDevice) -> Result<Reply, NoMemory>
    requires cells { (memory_of device.old).cells ≤ MAX_REPLAYED_CELLS }
    ensures { IfOk result (λ r.
        CrashAnswers keep.now (memory_of device.old) (memory_of device.new) r) }
{
    begin_by_hand(device)?;
    match device.crash(keep) {
        Ok(crash) => Ok(Reply::Crashed(crash)),
        Err(_) => Err(memory::lacked_elsewhere()),
    }
}
