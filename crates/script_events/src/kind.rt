//! What an event does, by its member `do`.
ghost use Rattle.std.specs.Prelude.{◌≡◌};
ghost use Rattle.serde_json.specs.View.{view};
ghost use Rattle.script_events.specs.Grammar.{SaysKind, kind_name};
ghost use Rattle.script_events.specs.Json.{Exactly};

use serde_json::Value;

/// The kinds of events.
#[derive(Clone, Copy)]
pub enum EventKind {
    Format,
    Ingest,
    Find,
    Lookup,
    Audit,
    Recover,
    Foreign,
    Crash,
}

/// What the event does.
pub(crate) fn kind_of(value: &Value) -> Option<EventKind>
    ensures { Exactly (λ kind. SaysKind kind (view value.now)) result }
{
    let Some(name) = value.get("do") else {
        return None;
    };
    let Some(name) = name.as_str() else {
        return None;
    };
    kind_named(name)
}

/// The kind of this name.
fn kind_named(name: &str) -> Option<EventKind>
    ensures { Exactly (λ kind. name.now ≡ kind_name kind) result }
{
    if name == "format" {
        return Some(EventKind::Format);
    }
    if name == "ingest" {
        return Some(EventKind::Ingest);
    }
    if name == "find" {
        return Some(EventKind::Find);
    }
    if name == "lookup" {
        return Some(EventKind::Lookup);
    }
    if name == "audit" {
        return Some(EventKind::Audit);
    }
    if name == "recover" {
        return Some(EventKind::Recover);
    }
    if name == "foreign" {
        return Some(EventKind::Foreign);
    }
    if name == "crash" {
        return Some(EventKind::Crash);
    }
    None
}
