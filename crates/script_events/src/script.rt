//! A script, read from its text.
ghost use Rattle.std.specs.Prelude.{◌≡◌, ◌≤◌, ◌⊎◌, ℕ, length, IfOk, IfErr, IfSome, IfNone};
ghost use Rattle.serde_json.specs.Data.{Items};
ghost use Rattle.serde_json.specs.View.{view, items_view};
ghost use Rattle.cell_types.specs.declared.geometry.TheConstants.{FIRST_VERSION, NEWEST_VERSION};
ghost use Rattle.cell_types.specs.declared.refusal.Refusal.TheVariants.{BadScript};
ghost use Rattle.cell_types.specs.declared.refusal.Refusal.TheVariants as refusals;
ghost use Rattle.script_events.specs.Grammar.{SaysEvent};
ghost use Rattle.script_events.specs.Json.{AreItems, Exactly, IsFirstOther};
ghost use Rattle.script_events.specs.Scripts.{ReadScriptEnds, SaysFrame, SaysVersion};
ghost use Rattle.script_events.specs.declared.limits.TheConstants.{MAX_EVENTS};

use crate::event::{Event, Script};
use crate::limits::{MAX_EVENTS, MAX_SCRIPT_CELLS};
use crate::lists::count;
use crate::members::has_only;
use crate::reader::event;
use crate::sequence::Sequence;
use crate::values::number;
use cell_types::{FIRST_VERSION, NEWEST_VERSION, NoMemory, Refusal, memory};
use serde_json::Value;
use std::alloc::Global;

/// Reads a script.
pub fn read_script(alloc: Global, text: &[u8]) -> Result<Script, Refusal>
    ensures { ReadScriptEnds text.now result }
{
    let Ok(text) = std::str::from_utf8(text) else {
        return Err(Refusal::BadScript(0));
    };
    let value = match Value::from_str(alloc, text) {
        Ok(value) => value,
        Err(error) => {
            if error.is_memory() {
                return Err(Refusal::from(memory::lacked_elsewhere()));
            }
            return Err(Refusal::BadScript(0));
        }
    };
    let Some((cells, version, array)) = frame(&value) else {
        return Err(Refusal::BadScript(0));
    };
    match events(alloc, array, cells, version) {
        Ok(events) => Ok(Script { cells, events }),
        Err(refusal) => Err(refusal),
    }
}

/// The cells of a script, its version, and what stands in the places of its events.
fn frame(value: &Value) -> Option<(u32, u8, &Vec<Value>)>
    ensures some { IfSome result (λ said. SaysFrame said.0 said.1 (items_view said.2.now.items) (view value.now)) }
    ensures from { IfSome result (λ said. FIRST_VERSION ≤ said.1) }
    ensures to { IfSome result (λ said. said.1 ≤ NEWEST_VERSION) }
    ensures few { IfSome result (λ said. length said.2.now.items ≤ MAX_EVENTS) }
    ensures none { IfNone result ((cells version : ℕ) (items : Items) → SaysFrame cells version items (view value.now)
        → ⊥) }
{
    if !has_only(value, &["cells", "version", "events"]) {
        return None;
    }
    let Some(cells) = value.get("cells") else {
        return None;
    };
    let Some(cells) = number(cells, 1, MAX_SCRIPT_CELLS) else {
        return None;
    };
    let Some(version) = version(value) else {
        return None;
    };
    let Some(events) = value.get("events") else {
        return None;
    };
    let Some(array) = events.as_array() else {
        return None;
    };
    if count(array) > MAX_EVENTS {
        return None;
    }
    Some((cells, version, array))
}

/// The version of the volumes that a script makes: the first where it states none.
fn version(value: &Value) -> Option<u8>
    ensures said { Exactly (λ version. SaysVersion version (view value.now)) result }
    ensures from { IfSome result (λ version. FIRST_VERSION ≤ version) }
    ensures to { IfSome result (λ version. version ≤ NEWEST_VERSION) }
{
    let Some(stated) = value.get("version") else {
        return Some(FIRST_VERSION);
    };
    match number(stated, u32::from(FIRST_VERSION), u32::from(NEWEST_VERSION)) {
        Some(version) => Some(version as u8),
        None => None,
    }
}

/// The events that these are, or the number of the first that is none.
fn events(
    alloc: Global,
    array: &Vec<Value>,
    cells: u32,
    version: u8,
) -> Result<Sequence<Event>, Refusal>
    requires few { length array.now.items ≤ MAX_EVENTS }
    requires from { FIRST_VERSION ≤ version }
    requires to { version ≤ NEWEST_VERSION }
    ensures found { IfOk result (λ found. AreItems (SaysEvent cells version) found (items_view array.now.items)) }
    ensures other { IfErr result (λ refusal. (refusal ≡ refusals.NoMemory)
        ⊎ ((i : ℕ) × (refusal ≡ BadScript i) × (1 ≤ i)
        × IsFirstOther (SaysEvent cells version) i (items_view array.now.items))) }
{
    let mut found = Vec::new(alloc);
    let mut passed = 0;
    for value in array {
        let next = event(alloc, value, cells, version)?;
        let Some(next) = next else {
            return Err(Refusal::BadScript(passed + 1));
        };
        memory::push(&mut found, next)?;
        passed += 1;
    }
    Ok(Sequence::new(found))
}
