//! One event of a script.
ghost use Rattle.std.specs.Prelude.{◌≡◌, ◌≤◌, IfOk, Some, codes};
ghost use Rattle.serde_json.specs.Data.{string};
ghost use Rattle.serde_json.specs.Find.{get};
ghost use Rattle.serde_json.specs.View.{view};
ghost use Rattle.cell_types.specs.declared.geometry.TheConstants.{FIRST_VERSION, NEWEST_VERSION};
ghost use Rattle.script_events.specs.Grammar.{SaysEvent};
ghost use Rattle.script_events.specs.Json.{Exactly};

use crate::event::Event;
use crate::kind::{EventKind, kind_of};
use crate::rows::{crash, find, foreign, format, ingest, lookup, plan_alone};
use cell_types::NoMemory;
use serde_json::Value;
use std::alloc::Global;
use volume_meaning::rule_of;

/// The event that the value is.
#[tactic(auto, using(crate::proofs::OneKind::of_no_other_kind))]
pub(crate) fn event(
    alloc: Global,
    value: &Value,
    cells: u32,
    version: u8,
) -> Result<Option<Event>, NoMemory>
    requires from { FIRST_VERSION ≤ version }
    requires to { version ≤ NEWEST_VERSION }
    ensures { IfOk result (Exactly (λ event. SaysEvent cells version event (view value.now))) }
{
    let Some(kind) = kind_of(value) else {
        return Ok(None);
    };
    match kind {
        EventKind::Format => Ok(format(alloc, value, cells)?.map(|(slots, lists, plan)| {
            Event::Format {
                slots,
                lists,
                version,
                plan,
            }
        })),
        EventKind::Ingest => Ok(ingest(alloc, value, cells)?.map(|(id, stamp, body, plan)| {
            Event::Ingest {
                id,
                stamp,
                body,
                plan,
            }
        })),
        EventKind::Find => {
            let said = find(alloc, value, cells, rule_of(version))?;
            Ok(said.map(|(terms, plan)| Event::Find { terms, plan }))
        }
        EventKind::Lookup => {
            Ok(lookup(alloc, value, cells)?.map(|(id, plan)| Event::Lookup { id, plan }))
        }
        EventKind::Audit => {
            Ok(plan_alone(alloc, value, cells)?.map(|plan| Event::Audit { plan }))
        }
        EventKind::Recover => {
            Ok(plan_alone(alloc, value, cells)?.map(|plan| Event::Recover { plan }))
        }
        EventKind::Foreign => {
            Ok(foreign(value, cells).map(|(at, cell)| Event::Foreign { at, cell }))
        }
        EventKind::Crash => Ok(crash(alloc, value)?.map(|keep| Event::Crash { keep })),
    }
}
