//! Where memory is taken. Each call is std's of the same name, and tells `NoMemory` where that one finds none. No other
//! crate can make a `NoMemory`, nor a refusal that says the same: whom memory lacks elsewhere asks `lacked_elsewhere`
//! for it, and `tools/check_memory` lists who does.
ghost use Rattle.std.specs.Prelude.{◌≡◌, ◌+◌, ◌<◌, ◌≤◌, ◌^◌, [], encode_utf8, ◌++◌, ◌∷◌, length, replicate, is_ok, if◌then◌else◌, not, true, IfOk, IfSome, IsOk, OnOk, OnErr, Some};
ghost use Rattle.std.specs.List.Sorted.{IsPermutation, IsSorted};
ghost use Rattle.std.specs.BTreeMap.{get, insert_entry, values, IsOrdered, Updates, IsUnchanged};
ghost use Rattle.std.specs.BTreeSet.{contains, insert_key};
ghost use Rattle.std.specs.BTreeSet.{Updates as SetUpdates, IsUnchanged as IsSetUnchanged};
ghost use Rattle.std.specs.String.{string_bytes};
ghost use Rattle.std.specs.Vec.{vec_len, vec_capacity};

use crate::NoMemory;
use std::alloc::Global;
use std::collections::{BTreeMap, BTreeSet};
use std::fmt::Display;

/// No item yet, and room for so many.
#[inline(always)]
pub fn with_capacity<T>(alloc: Global, capacity: usize) -> Result<Vec<T>, NoMemory>
    ensures items { IfOk result (λ v. v.items ≡ []) }
    ensures len { IfOk result (λ v. vec_len v ≡ 0) }
    ensures capacity { IfOk result (λ v. capacity ≤ vec_capacity v) }
{
    match Vec::with_capacity(alloc, capacity) {
        Ok(items) => Ok(items),
        Err(_) => Err(NoMemory),
    }
}

/// These items, copied.
#[inline(always)]
pub fn from_slice<T: Copy>(alloc: Global, items: &[T]) -> Result<Vec<T>, NoMemory>
    ensures items { IfOk result (λ v. v.items ≡ items.now) }
    ensures len { IfOk result (λ v. vec_len v ≡ length items.now) }
{
    match Vec::from_slice(alloc, items) {
        Ok(copied) => Ok(copied),
        Err(_) => Err(NoMemory),
    }
}

/// This text, copied.
pub fn from_str(alloc: Global, text: &str) -> Result<String, NoMemory>
    ensures { IfOk result (λ t. string_bytes t ≡ text.now) }
{
    match String::from_str(alloc, text) {
        Ok(copied) => Ok(copied),
        Err(_) => Err(NoMemory),
    }
}

/// What `format!` makes of it, as `format(alloc, format_args!("slot {slot}"))`. No `fmt` of ours fails, so what fails is
/// memory.
pub fn format<D: Display + Drop>(alloc: Global, value: D) -> Result<String, NoMemory>
    ensures ok { IfOk result (λ t. IfSome (D.output value) (λ bytes. string_bytes t ≡ bytes)) }
{
    match String::format(alloc, value) {
        Ok(text) => Ok(text),
        Err(_) => Err(NoMemory),
    }
}

/// So many times this item.
#[inline(always)]
pub fn repeated<T: Clone>(alloc: Global, item: T, times: usize) -> Result<Vec<T>, NoMemory>
    ensures items { IfOk result (λ v. ((y : T) → T.is_clone item y → y ≡ item) → v.items ≡ replicate times item) }
    ensures len { IfOk result (λ v. vec_len v ≡ times) }
{
    match vec![in alloc; item; times] {
        Ok(items) => Ok(items),
        Err(_) => Err(NoMemory),
    }
}

/// Room for so many items more. Those that are there stay.
#[inline(always)]
pub fn reserve<T>(items: &mut Vec<T>, more: usize) -> Result<(), NoMemory>
    ensures items { items.new.items ≡ items.old.items }
    ensures len { vec_len items.new ≡ vec_len items.old }
    ensures ok { OnOk result (vec_len items.new + more ≤ vec_capacity items.new) }
    ensures capacity { vec_capacity items.old ≤ vec_capacity items.new }
    ensures succeeds { vec_len items.old + more ≤ vec_capacity items.old → IsOk result }
    ensures err { OnErr result (vec_capacity items.new ≡ vec_capacity items.old) }
{
    match items.reserve(more) {
        Ok(()) => Ok(()),
        Err(_) => Err(NoMemory),
    }
}

/// One item more, behind the others. Without memory those that are there stay.
#[inline(always)]
pub fn push<T: Drop>(items: &mut Vec<T>, item: T) -> Result<(), NoMemory>
    ensures items { items.new.items ≡ (if is_ok result then items.old.items ++ item ∷ [] else items.old.items) }
    ensures len { vec_len items.new ≡ (if is_ok result then vec_len items.old + 1 else vec_len items.old) }
    ensures capacity { vec_capacity items.old ≤ vec_capacity items.new }
    ensures succeeds { vec_len items.old < vec_capacity items.old → IsOk result }
{
    match items.push(item) {
        Ok(()) => Ok(()),
        Err(_) => Err(NoMemory),
    }
}

/// These items more, behind the others. Without memory those that are there stay.
#[inline(always)]
pub fn extend_from_slice<T: Copy>(items: &mut Vec<T>, more: &[T]) -> Result<(), NoMemory>
    ensures items { items.new.items ≡ (if is_ok result then items.old.items ++ more.now else items.old.items) }
    ensures len { vec_len items.new ≡ (if is_ok result then vec_len items.old + length more.now else vec_len items.old) }
    ensures capacity { vec_capacity items.old ≤ vec_capacity items.new }
    ensures succeeds { vec_len items.old + length more.now ≤ vec_capacity items.old → IsOk result }
{
    match items.extend_from_slice(more) {
        Ok(()) => Ok(()),
        Err(_) => Err(NoMemory),
    }
}

/// This text more, behind the other. Without memory what is there stays.
#[inline(always)]
pub fn push_str(text: &mut String, more: &str) -> Result<(), NoMemory>
    ensures bytes { string_bytes text.new
        ≡ (if is_ok result then string_bytes text.old ++ more.now else string_bytes text.old) }
{
    match text.push_str(more) {
        Ok(()) => Ok(()),
        Err(_) => Err(NoMemory),
    }
}

/// This character more, behind the text. Without memory what is there stays.
#[inline(always)]
pub fn push_char(text: &mut String, more: char) -> Result<(), NoMemory>
    ensures bytes { string_bytes text.new
        ≡ (if is_ok result then string_bytes text.old ++ encode_utf8 more else string_bytes text.old) }
{
    match text.push(more) {
        Ok(()) => Ok(()),
        Err(_) => Err(NoMemory),
    }
}

/// The items in order. Sorting takes memory to merge in.
pub fn sort<T: Ord + Drop>(items: &mut Vec<T>) -> Result<(), NoMemory>
    ensures permutation { IsPermutation items.old.items items.new.items }
    ensures len { vec_len items.new ≡ vec_len items.old }
    ensures sorted { OnOk result (IsSorted T.cmp items.new.items) }
{
    match items.sort() {
        Ok(()) => Ok(()),
        Err(_) => Err(NoMemory),
    }
}

/// The value of a key, in the place of the one that it had, which comes back. Without memory all stay.
#[inline(always)]
pub fn insert<K: Ord + Drop, V: Drop>(
    map: &mut BTreeMap<K, V>,
    key: K,
    value: V,
) -> Result<Option<V>, NoMemory>
    ensures old { IfOk result (λ old. old ≡ get K.cmp map.old key) }
    ensures updates { OnOk result (Updates K.cmp map.old map.new key (Some value)) }
    ensures entries { OnOk result (map.new.entries ≡ insert_entry K.cmp map.old.entries key value) }
    ensures err { OnErr result (IsUnchanged map.old map.new) }
{
    match map.insert(key, value) {
        Ok(old) => Ok(old),
        Err(_) => Err(NoMemory),
    }
}

/// One key more, and whether it is new. Without memory all stay.
#[inline(always)]
pub fn insert_new<K: Ord + Drop>(set: &mut BTreeSet<K>, key: K) -> Result<bool, NoMemory>
    ensures added { IfOk result (λ added. added ≡ not (contains K.cmp set.old key)) }
    ensures updates { OnOk result (SetUpdates K.cmp set.old set.new key true) }
    ensures keys { OnOk result (set.new.keys ≡ insert_key K.cmp set.old.keys key) }
    ensures err { OnErr result (IsSetUnchanged set.old set.new) }
{
    match set.insert(key) {
        Ok(added) => Ok(added),
        Err(_) => Err(NoMemory),
    }
}

/// The values of a map, by rising keys.
pub fn values_of<K: Ord, V: Copy>(alloc: Global, map: &BTreeMap<K, V>) -> Result<Vec<V>, NoMemory>
    ensures values { IfOk result (λ v. v.items ≡ values map.now) }
    ensures ordered { IsOrdered K.cmp map.now }
{
    match map.values().copied().collect(alloc) {
        Ok(values) => Ok(values),
        Err(_) => Err(NoMemory),
    }
}

/// How many these are. No memory holds 2^32 of them.
pub fn count_of<T>(items: &[T]) -> Result<u32, NoMemory>
    ensures count { IfOk result (λ count. count ≡ length items.now) }
    ensures few { OnOk result (length items.now < 2 ^ 32) }
    ensures succeeds { length items.now < 2 ^ 32 → IsOk result }
{
    match u32::try_from(items.len()) {
        Ok(count) => Ok(count),
        Err(_) => Err(NoMemory),
    }
}

/// Memory lacked elsewhere: in a library that takes it itself, or in a sink that holds what is put. What stands in the
/// way of telling something else so is the list of those who may call this, in `tools/check_memory`.
pub fn lacked_elsewhere() -> NoMemory {
    NoMemory
}
