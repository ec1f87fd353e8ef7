//! What a list is asked.
ghost use Rattle.std.specs.Prelude.{◌≤◌, ◌+◌, IsTrue};
ghost use Rattle.worm_memory.specs.Device.{memory_of};

use crate::answer::{Answer, of_entry};
use crate::laying::Keys;
use cell_types::Fault;
use jump_block::Entry;
use jump_index::{Bounds, KeptSearch, find_geq, find_geq_from_kept};
use worm_device::{Device, Direct, View};
use worm_memory::MemoryDevice;

/// Where a list lies: its first block, and the cells in which the others may lie.
#[derive(Clone, Copy)]
pub struct List {
    pub head: u32,
    pub bounds: Bounds,
}

impl List {
    /// Whether it lies on a device of so many cells.
    pub fn is_within(&self, cells: u32) -> bool
        ensures { IsTrue result → (self.now.head + 256 ≤ cells) × (self.now.bounds.edge ≤ cells) }
    {
        cells >= 256 && self.head <= cells - 256 && self.bounds.edge <= cells
    }
}

/// The first entry of the list at or past a key.
pub fn find(device: &mut MemoryDevice, list: List, key: u32) -> Answer {
    if !list.is_within(device.cells()) {
        return Answer::NoAsk;
    }
    of_entry(find_in(&mut Direct::new(device), list, key))
}

/// The same over a view.
fn find_in<V: View>(view: &mut V, list: List, key: u32) -> Result<Option<Entry>, Fault>
    requires head { list.head + 256 ≤ (V.seen view.old).cells }
    requires edge { list.bounds.edge ≤ (V.seen view.old).cells }
{
    find_geq(view, list.head, key, list.bounds)
}

/// The first of some keys that is not the answer both to itself and to what lies behind the key before it; before the
/// first of them lies one less than `from`.
pub fn lost_key(device: &mut MemoryDevice, list: List, from: u32, keys: Keys) -> Answer {
    let mut from = from;
    for number in 0..keys.count {
        let key = keys.at(number);
        for asked in [from, key] {
            if !finds(device, list, asked, key) {
                return Answer::Number(u64::from(key));
            }
        }
        from = key.saturating_add(1);
    }
    Answer::Nothing
}

/// Whether a key is what a search answers.
fn finds(device: &mut MemoryDevice, list: List, asked: u32, key: u32) -> bool {
    match find(device, list, asked) {
        Answer::Entry(entry) => entry.key == key,
        _ => false,
    }
}

/// How many entries the list has, each asked for by the key before plus one.
pub fn scan(device: &mut MemoryDevice, list: List) -> Answer {
    if !list.is_within(device.cells()) {
        return Answer::NoAsk;
    }
    match count_entries(&mut Direct::new(device), list.head, list.bounds) {
        Ok(count) => Answer::Number(u64::from(count)),
        Err(fault) => Answer::Fault(fault),
    }
}

/// How many entries a list has, up to some thousands. What is known of the list is kept from one to the next.
fn count_entries<V: View>(view: &mut V, head: u32, bounds: Bounds) -> Result<u32, Fault>
    requires head { head + 256 ≤ (V.seen view.old).cells }
    requires edge { bounds.edge ≤ (V.seen view.old).cells }
{
    let mut kept = KeptSearch::new();
    let mut key = 0_u32;
    for count in 0..5_000 {
        match find_geq_from_kept(view, &mut kept, head, key, bounds) {
            Ok(Some(entry)) => key = entry.key.saturating_add(1),
            Ok(None) => return Ok(count),
            Err(fault) => return Err(fault),
        }
    }
    Ok(5_000)
}

/// Whether each of these keys is found, or this cell is named.
pub fn are_found_or_named(device: &mut MemoryDevice, list: List, keys: &[u32], named: u32) -> bool {
    list.is_within(device.cells()) && are_seen_or_named(&mut Direct::new(device), list, keys, named)
}

/// The same over a view. What is known of the list is kept from one key to the next.
fn are_seen_or_named<V: View>(view: &mut V, list: List, keys: &[u32], named: u32) -> bool
    requires head { list.head + 256 ≤ (V.seen view.old).cells }
    requires edge { list.bounds.edge ≤ (V.seen view.old).cells }
{
    let mut kept = KeptSearch::new();
    for &key in keys {
        let is_so = match find_geq_from_kept(view, &mut kept, list.head, key, list.bounds) {
            Ok(Some(entry)) => entry.key == key,
            Err(Fault::Tampered(evidence)) => evidence.cell == named,
            Ok(None) | Err(Fault::Failed) => false,
        };
        if !is_so {
            return false;
        }
    }
    true
}
