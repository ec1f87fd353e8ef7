//! The call that a program makes.
ghost use Rattle.std.specs.Prelude.{map};
ghost use Rattle.std.specs.String.{string_bytes};
ghost use Rattle.command_line.specs.Requests.{IsAskedFor, request_of};
ghost use Rattle.record_top.specs.Commands.{Does};
ghost use Rattle.record_top.specs.Runs.{Runs};
ghost use Rattle.volume_commands.specs.Ports.{ports_of};

use crate::exercising::exercise_volume;
use crate::replay::replay_script;
use cell_types::Refusal;
use command_line::{Command, command_of};
use host_ports::{Meter, Silent, Sink, Source};
use std::alloc::Global;
use volume_commands::{
    Outcome, audit_volume, check_source, find_between, find_documents, format_device, ingest_body,
    lookup_document, put_receipt, recover_device,
};
use worm_device::Device;

/// Carries out the command that the words ask for, or refuses. `specs/Runs.antt` says what is promised of it.
pub fn run<D: Device, S: Source, K: Sink>(
    alloc: Global,
    words: &[String],
    device: &mut D,
    source: &mut S,
    sink: &mut K,
) -> Outcome
    ensures { Runs (map string_bytes words.now)
        (ports_of (D.state device.old) (S.state source.old) (K.state sink.old))
        (ports_of (D.state device.new) (S.state source.new) (K.state sink.new)) result }
{
    run_metered(alloc, words, device, source, sink, &mut Silent)
}

/// The same, and shows how far a long command is.
pub fn run_metered<D: Device, S: Source, K: Sink, M: Meter>(
    alloc: Global,
    words: &[String],
    device: &mut D,
    source: &mut S,
    sink: &mut K,
    meter: &mut M,
) -> Outcome
    ensures { Runs (map string_bytes words.now)
        (ports_of (D.state device.old) (S.state source.old) (K.state sink.old))
        (ports_of (D.state device.new) (S.state source.new) (K.state sink.new)) result }
{
    let Some(command) = command_of(words) else {
        return Err(Refusal::Usage);
    };
    carry_out(alloc, command, device, source, sink, meter)
}

/// Carries out a command.
fn carry_out<D: Device, S: Source, K: Sink, M: Meter>(
    alloc: Global,
    command: Command<'_>,
    device: &mut D,
    source: &mut S,
    sink: &mut K,
    meter: &mut M,
) -> Outcome
    requires { IsAskedFor (request_of command) }
    ensures { Does (request_of command.entry) (ports_of (D.state device.old) (S.state source.old) (K.state sink.old))
        (ports_of (D.state device.new) (S.state source.new) (K.state sink.new)) result }
{
    match command {
        Command::Format {
            slots,
            lists,
            version,
        } => format_device(slots, lists, version, device, source, sink),
        Command::Ingest { id, stamp } => ingest_body(alloc, id, stamp, device, source, sink),
        Command::Find { words } => find_documents(alloc, words, device, source, sink),
        Command::LookUp { id } => lookup_document(id, device, source, sink),
        Command::Recover => recover_device(device, source, sink),
        Command::Audit => audit_volume(alloc, device, source, sink, meter),
        Command::Replay => replay_script(alloc, device, source, sink),
        Command::Exercise { documents } => {
            exercise_volume(alloc, documents, device, source, sink)
        }
        Command::Check => check_source(alloc, device, source, sink),
        Command::MakeReceipt { id } => put_receipt(alloc, id, device, source, sink),
        Command::FindBetween { from, to } => { find_between(alloc, from, to, device, source, sink) }
    }
}
