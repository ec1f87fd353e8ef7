//! What befalls the calls of a command.
ghost use Rattle.std.specs.Prelude.{codes, IfOk};
ghost use Rattle.serde_json.specs.View.{view};
ghost use Rattle.script_events.specs.Grammar.{SaysMoment, SaysPlan, SaysTimed};
ghost use Rattle.script_events.specs.Json.{Exactly, HasArray, MayHaveMember};
ghost use Rattle.script_events.specs.declared.limits.TheConstants.{MAX_FOREIGN_WRITES, MAX_FAILING};

use crate::event::{Schedule, Timed};
use crate::limits::{MAX_FAILING, MAX_FOREIGN_WRITES};
use crate::lists::{moments, planned_writes};
use crate::sequence::Sequence;
use crate::values::moment;
use cell_types::NoMemory;
use serde_json::Value;
use std::alloc::Global;
use worm_memory::Moment;

/// The plan that is among the members.
pub(crate) fn plan(alloc: Global, value: &Value, cells: u32) -> Result<Option<Schedule>, NoMemory>
    ensures { IfOk result (Exactly (λ plan. SaysPlan cells plan (view value.now))) }
{
    let Some(stop) = stop(value) else {
        return Ok(None);
    };
    let Some(fail) = fail(alloc, value)? else {
        return Ok(None);
    };
    let Some(foreign) = foreign(alloc, value, cells)? else {
        return Ok(None);
    };
    Ok(Some(Schedule {
        stop,
        fail,
        foreign,
    }))
}

/// The moment after which each call fails, where the value has one.
fn stop(value: &Value) -> Option<Option<Moment>>
    ensures { Exactly (λ stop. MayHaveMember (codes "stop") SaysMoment stop (view value.now)) result }
{
    let Some(stop) = value.get("stop") else {
        return Some(None);
    };
    match moment(stop) {
        Some(stop) => Some(Some(stop)),
        None => None,
    }
}

/// The moments whose calls fail.
fn fail(alloc: Global, value: &Value) -> Result<Option<Sequence<Moment>>, NoMemory>
    ensures { IfOk result (Exactly (λ fail. HasArray (codes "fail") SaysMoment MAX_FAILING fail (view value.now))) }
{
    match value.get("fail") {
        Some(fail) => moments(alloc, fail, MAX_FAILING),
        None => Ok(Some(Sequence::new(Vec::new(alloc)))),
    }
}

/// What others write before which calls.
fn foreign(alloc: Global, value: &Value, cells: u32) -> Result<Option<Sequence<Timed>>, NoMemory>
    ensures { IfOk result (Exactly (λ foreign. HasArray (codes "foreign") (SaysTimed cells) MAX_FOREIGN_WRITES foreign
        (view value.now))) }
{
    match value.get("foreign") {
        Some(foreign) => planned_writes(alloc, foreign, MAX_FOREIGN_WRITES, cells),
        None => Ok(Some(Sequence::new(Vec::new(alloc)))),
    }
}
