//! Lists of moments, of foreign writes, and of cells that are kept.
ghost use Rattle.std.specs.Prelude.{◌≡◌, ◌^◌, ◌-◌, length, IfOk};
ghost use Rattle.serde_json.specs.Events.{items_len};
ghost use Rattle.serde_json.specs.View.{view, items_view};
ghost use Rattle.script_events.specs.Grammar.{SaysMoment, SaysTimed};
ghost use Rattle.script_events.specs.Json.{AreItems, Exactly, IsArrayOf, IsNumberIn};

use crate::event::Timed;
use crate::sequence::Sequence;
use crate::values::{moment, number, timed};
use cell_types::{NoMemory, memory};
use serde_json::Value;
use std::alloc::Global;
use worm_memory::Moment;

/// How many items the array has.
#[tactic(auto, using(crate::proofs::OneByOne::items_counted))]
pub(crate) fn count(array: &Vec<Value>) -> usize
    ensures items { result ≡ items_len (items_view array.now.items) }
    ensures long { result ≡ length array.now.items }
{
    array.len()
}

/// The moments that the array has, where they are at most so many.
pub(crate) fn moments(
    alloc: Global,
    value: &Value,
    most: usize,
) -> Result<Option<Sequence<Moment>>, NoMemory>
    ensures { IfOk result (Exactly (λ found. IsArrayOf SaysMoment 0 most found (view value.now))) }
{
    let Some(array) = value.as_array() else {
        return Ok(None);
    };
    if count(array) > most {
        return Ok(None);
    }
    moments_in(alloc, array)
}

/// The moments that these are.
fn moments_in(alloc: Global, array: &Vec<Value>) -> Result<Option<Sequence<Moment>>, NoMemory>
    ensures { IfOk result (Exactly (λ found. AreItems SaysMoment found (items_view array.now.items))) }
{
    let mut found = Vec::new(alloc);
    for value in array {
        let Some(next) = moment(value) else {
            return Ok(None);
        };
        memory::push(&mut found, next)?;
    }
    Ok(Some(Sequence::new(found)))
}

/// The foreign writes that the array has, where they are at most so many.
pub(crate) fn planned_writes(
    alloc: Global,
    value: &Value,
    most: usize,
    cells: u32,
) -> Result<Option<Sequence<Timed>>, NoMemory>
    ensures { IfOk result (Exactly (λ found. IsArrayOf (SaysTimed cells) 0 most found (view value.now))) }
{
    let Some(array) = value.as_array() else {
        return Ok(None);
    };
    if count(array) > most {
        return Ok(None);
    }
    planned_writes_in(alloc, array, cells)
}

/// The foreign writes that these are.
fn planned_writes_in(
    alloc: Global,
    array: &Vec<Value>,
    cells: u32,
) -> Result<Option<Sequence<Timed>>, NoMemory>
    ensures { IfOk result (Exactly (λ found. AreItems (SaysTimed cells) found (items_view array.now.items))) }
{
    let mut found = Vec::new(alloc);
    for value in array {
        let Some(next) = timed(value, cells) else {
            return Ok(None);
        };
        memory::push(&mut found, next)?;
    }
    Ok(Some(Sequence::new(found)))
}

/// The numbers that the array has, where they are at most so many.
pub(crate) fn numbers(
    alloc: Global,
    value: &Value,
    most: usize,
) -> Result<Option<Sequence<u32>>, NoMemory>
    ensures { IfOk result (Exactly (λ found. IsArrayOf (IsNumberIn 0 (2 ^ 32 - 1)) 0 most found (view value.now))) }
{
    let Some(array) = value.as_array() else {
        return Ok(None);
    };
    if count(array) > most {
        return Ok(None);
    }
    numbers_in(alloc, array)
}

/// The numbers that these are.
fn numbers_in(alloc: Global, array: &Vec<Value>) -> Result<Option<Sequence<u32>>, NoMemory>
    ensures { IfOk result (Exactly (λ found. AreItems (IsNumberIn 0 (2 ^ 32 - 1)) found (items_view array.now.items))) }
{
    let mut found = Vec::new(alloc);
    for value in array {
        let Some(next) = number(value, 0, u32::MAX) else {
            return Ok(None);
        };
        memory::push(&mut found, next)?;
    }
    Ok(Some(Sequence::new(found)))
}
