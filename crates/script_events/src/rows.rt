//! The members of each kind of event.
ghost use Rattle.std.specs.Prelude.{codes, IfOk};
ghost use Rattle.serde_json.specs.View.{view};
ghost use Rattle.script_events.specs.Grammar.{SaysCrash, SaysFind, SaysForeign, SaysFormat, SaysIngest, SaysLookup, SaysPlanAlone, SaysSeconds};
ghost use Rattle.script_events.specs.Json.{Exactly, MayHaveMember};

use crate::event::Schedule;
use crate::limits::MAX_KEPT;
use crate::lists::numbers;
use crate::members::has_only;
use crate::plan::plan;
use crate::sequence::Sequence;
use crate::texts::{body, identifier, terms};
use crate::values::{cell, number, number_below};
use cell_types::{Cell, MAX_LISTS, MAX_SLOTS, NoMemory};
use document_store::Text;
use serde_json::Value;
use std::alloc::Global;
use volume_meaning::WordRule;
use word_reader::Term;

/// The slots, the lists and the plan of a `format`.
pub(crate) fn format(
    alloc: Global,
    value: &Value,
    cells: u32,
) -> Result<Option<(u32, u16, Schedule)>, NoMemory>
    ensures { IfOk result (Exactly (λ said. SaysFormat cells said.0 said.1 said.2 (view value.now))) }
{
    if !has_only(value, &["do", "slots", "lists", "stop", "fail", "foreign"]) {
        return Ok(None);
    }
    let Some(slots) = value.get("slots") else {
        return Ok(None);
    };
    let Some(lists) = value.get("lists") else {
        return Ok(None);
    };
    let Some(slots) = number(slots, 1, MAX_SLOTS) else {
        return Ok(None);
    };
    let Some(lists) = number(lists, 1, u32::from(MAX_LISTS)) else {
        return Ok(None);
    };
    let Some(plan) = plan(alloc, value, cells)? else {
        return Ok(None);
    };
    Ok(Some((slots, lists as u16, plan)))
}

/// The document, its stamp and the plan of an `ingest`.
pub(crate) fn ingest(
    alloc: Global,
    value: &Value,
    cells: u32,
) -> Result<Option<(Text, Option<u32>, Text, Schedule)>, NoMemory>
    ensures { IfOk result (Exactly (λ said.
        SaysIngest cells said.0 said.1 said.2 said.3 (view value.now))) }
{
    if !has_only(
        value,
        &[
            "do", "id", "stamp", "body", "hex", "stop", "fail", "foreign",
        ],
    ) {
        return Ok(None);
    }
    let Some(id) = value.get("id") else {
        return Ok(None);
    };
    let Some(id) = identifier(alloc, id)? else {
        return Ok(None);
    };
    let Some(stamp) = stamp(value) else {
        return Ok(None);
    };
    let Some(body) = body(alloc, value)? else {
        return Ok(None);
    };
    let Some(plan) = plan(alloc, value, cells)? else {
        return Ok(None);
    };
    Ok(Some((id, stamp, body, plan)))
}

/// The stamp of a document, where the value has one.
fn stamp(value: &Value) -> Option<Option<u32>>
    ensures { Exactly (λ stamp. MayHaveMember (codes "stamp") SaysSeconds stamp (view value.now)) result }
{
    let Some(stamp) = value.get("stamp") else {
        return Some(None);
    };
    match number(stamp, 0, u32::MAX) {
        Some(seconds) => Some(Some(seconds)),
        None => None,
    }
}

/// The terms and the plan of a `find`, its words read by this rule.
pub(crate) fn find(
    alloc: Global,
    value: &Value,
    cells: u32,
    rule: WordRule,
) -> Result<Option<(Sequence<Term>, Schedule)>, NoMemory>
    ensures { IfOk result (Exactly (λ said. SaysFind cells rule said.0 said.1 (view value.now))) }
{
    if !has_only(value, &["do", "words", "stop", "fail", "foreign"]) {
        return Ok(None);
    }
    let Some(words) = value.get("words") else {
        return Ok(None);
    };
    let Some(terms) = terms(alloc, words, rule)? else {
        return Ok(None);
    };
    let Some(plan) = plan(alloc, value, cells)? else {
        return Ok(None);
    };
    Ok(Some((terms, plan)))
}

/// The identifier and the plan of a `lookup`.
pub(crate) fn lookup(
    alloc: Global,
    value: &Value,
    cells: u32,
) -> Result<Option<(Text, Schedule)>, NoMemory>
    ensures { IfOk result (Exactly (λ said. SaysLookup cells said.0 said.1 (view value.now))) }
{
    if !has_only(value, &["do", "id", "stop", "fail", "foreign"]) {
        return Ok(None);
    }
    let Some(id) = value.get("id") else {
        return Ok(None);
    };
    let Some(id) = identifier(alloc, id)? else {
        return Ok(None);
    };
    let Some(plan) = plan(alloc, value, cells)? else {
        return Ok(None);
    };
    Ok(Some((id, plan)))
}

/// The plan of an event that has nothing else.
pub(crate) fn plan_alone(
    alloc: Global,
    value: &Value,
    cells: u32,
) -> Result<Option<Schedule>, NoMemory>
    ensures { IfOk result (Exactly (λ plan. SaysPlanAlone cells plan (view value.now))) }
{
    if !has_only(value, &["do", "stop", "fail", "foreign"]) {
        return Ok(None);
    }
    plan(alloc, value, cells)
}

/// The cell that a `foreign` writes, and what it writes there.
pub(crate) fn foreign(value: &Value, cells: u32) -> Option<(u32, Cell)>
    ensures { Exactly (λ said. SaysForeign cells said.0 said.1 (view value.now)) result }
{
    if !has_only(value, &["do", "at", "cell"]) {
        return None;
    }
    let Some(at) = value.get("at") else {
        return None;
    };
    let Some(found) = value.get("cell") else {
        return None;
    };
    let Some(at) = number_below(at, cells) else {
        return None;
    };
    match cell(found) {
        Some(cell) => Some((at, cell)),
        None => None,
    }
}

/// The cells that a `crash` keeps.
pub(crate) fn crash(alloc: Global, value: &Value) -> Result<Option<Sequence<u32>>, NoMemory>
    ensures { IfOk result (Exactly (λ keep. SaysCrash keep (view value.now))) }
{
    if !has_only(value, &["do", "keep"]) {
        return Ok(None);
    }
    let Some(keep) = value.get("keep") else {
        return Ok(None);
    };
    numbers(alloc, keep, MAX_KEPT)
}
