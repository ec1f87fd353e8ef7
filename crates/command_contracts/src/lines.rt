//! Words of a command, and texts that are put out.
ghost use Rattle.std.specs.Prelude.{map, IfNone, IfSome, OnErr, OnOk};
ghost use Rattle.std.specs.String.{string_bytes};
ghost use Rattle.command_line.specs.Requests.{Asks, AsksNothing, request_of};
ghost use Rattle.host_ports.specs.Sinks.{Gets, PutsPart};

use command_line::{Command, SinkFailed, command_of, put_text};
use host_ports::Sink;

/// `command_of`.
pub fn command_of_again(words: &[String]) -> Option<Command<'_>>
    ensures some { IfSome result (λ command. Asks (map string_bytes words.now) (request_of command)) }
    ensures none { IfNone result (AsksNothing (map string_bytes words.now)) }
{
    command_of(words)
}

/// `put_text`.
pub fn put_text_again<K: Sink>(sink: &mut K, text: &[u8]) -> Result<(), SinkFailed>
    ensures whole { OnOk result (Gets (K.state sink.old).held (K.state sink.new).held text.now) }
    ensures part { OnErr result (PutsPart text.now (K.state sink.old) (K.state sink.new)) }
{
    put_text(sink, text)
}
