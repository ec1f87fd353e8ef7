//! Numbers, moments and cells.
ghost use Rattle.std.specs.Prelude.{◌≡◌};
ghost use Rattle.serde_json.specs.View.{view};
ghost use Rattle.script_events.specs.Grammar.{SaysCell, SaysMoment, SaysTimed};
ghost use Rattle.script_events.specs.Json.{Exactly, IsNumberBelow, IsNumberIn};

use crate::event::Timed;
use crate::limits::MAX_MOMENT;
use crate::members::has_only;
use cell_types::Cell;
use serde_json::Value;
use worm_memory::Moment;

/// The number, where the value is one in range.
pub(crate) fn number(value: &Value, least: u32, most: u32) -> Option<u32>
    ensures { Exactly (λ n. IsNumberIn least most n (view value.now)) result }
{
    let Some(number) = value.as_u64() else {
        return None;
    };
    if number < u64::from(least) || number > u64::from(most) {
        return None;
    }
    Some(number as u32)
}

/// The number, where the value is one below the end.
pub(crate) fn number_below(value: &Value, end: u32) -> Option<u32>
    ensures { Exactly (λ n. IsNumberBelow end n (view value.now)) result }
{
    let Some(number) = value.as_u64() else {
        return None;
    };
    if number >= u64::from(end) {
        return None;
    }
    Some(number as u32)
}

/// The moment that the value is.
pub(crate) fn moment(value: &Value) -> Option<Moment>
    ensures { Exactly (λ moment. SaysMoment moment (view value.now)) result }
{
    if !has_only(value, &["step", "call"]) {
        return None;
    }
    match (value.get("step"), value.get("call")) {
        (Some(step), None) => match number(step, 1, MAX_MOMENT) {
            Some(step) => Some(Moment::Step(step)),
            None => None,
        },
        (None, Some(call)) => match number(call, 1, MAX_MOMENT) {
            Some(call) => Some(Moment::Call(call)),
            None => None,
        },
        _ => None,
    }
}

/// The foreign write that the value is.
pub(crate) fn timed(value: &Value, cells: u32) -> Option<Timed>
    ensures { Exactly (λ timed. SaysTimed cells timed (view value.now)) result }
{
    if !has_only(value, &["before", "at", "cell"]) {
        return None;
    }
    let Some(before) = value.get("before") else {
        return None;
    };
    let Some(at) = value.get("at") else {
        return None;
    };
    let Some(found) = value.get("cell") else {
        return None;
    };
    let Some(before) = moment(before) else {
        return None;
    };
    let Some(at) = number_below(at, cells) else {
        return None;
    };
    let Some(found) = cell(found) else {
        return None;
    };
    Some(Timed {
        before,
        at,
        cell: found,
    })
}

/// The cell that the value spells.
pub(crate) fn cell(value: &Value) -> Option<Cell>
    ensures { Exactly (λ cell. SaysCell cell (view value.now)) result }
{
    let Some(text) = value.as_str() else {
        return None;
    };
    let mut bytes = [0; 16];
    if hex::decode_to_slice(text.as_bytes(), &mut bytes).is_err() {
        return None;
    }
    Cell::from_bytes(bytes)
}
