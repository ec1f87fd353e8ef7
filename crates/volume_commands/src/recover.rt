//! The command `recover`.
ghost use Rattle.std.specs.Prelude.{OnErr, OnOk};
ghost use Rattle.host_ports.specs.Sinks.{Gets, PutsPart};
ghost use Rattle.volume_commands.specs.Ports.{ports_of};
ghost use Rattle.volume_commands.specs.Recovering.{DoesRecover, step_text};

use crate::outcome::Outcome;
use command_line::{SinkFailed, put_slot_line, put_text};
use host_ports::{Sink, Source};
use recovery_engine::{Step, settle};
use worm_device::Device;

/// Settles the volume, and says what was done. Takes no memory.
pub fn recover_device<D: Device, S: Source, K: Sink>(
    device: &mut D,
    source: &mut S,
    sink: &mut K,
) -> Outcome
    ensures { DoesRecover (ports_of (D.state device.old) (S.state source.old) (K.state sink.old))
        (ports_of (D.state device.new) (S.state source.new) (K.state sink.new)) result }
{
    let ready = settle(device)?;
    put_step(sink, ready.step)?;
    Ok(())
}

/// Puts out what settling did.
fn put_step<K: Sink>(sink: &mut K, step: Step) -> Result<(), SinkFailed>
    ensures whole { OnOk result (Gets (K.state sink.old).held (K.state sink.new).held (step_text step)) }
    ensures part { OnErr result (PutsPart (step_text step) (K.state sink.old) (K.state sink.new)) }
{
    match step {
        Step::Nothing => put_text(sink, b"nothing to settle\n"),
        Step::Abandoned(slot) => put_slot_line(sink, "slot ", slot, " abandoned\n"),
        Step::Completed(slot) => put_slot_line(sink, "slot ", slot, " completed\n"),
    }
}
