//! Lists that grow: what insertions plan, and what they cost.
ghost use Rattle.std.specs.Prelude.{◌≡◌, ◌≤◌, ◌+◌, ◌*◌, ◌<◌, ◌^◌, ℕ, None, IsTrue};
ghost use Rattle.cell_pool.specs.Grants.{free_cells};
ghost use Rattle.worm_device.specs.Overlays.{of_overlay};

use crate::answer::Answer;
use crate::laying::{TAG, make_sure, put_planned};
use crate::searches::List;
use cell_pool::{GrowthFault, Pool};
use cell_types::{Cell, Fault, NoMemory};
use jump_block::Entry;
use jump_insertion::{NewEntry, insert};
use std::alloc::{AllocError, Global};
use worm_device::{Device, Direct, Overlay, PlannedCells, View};
use worm_memory::MemoryDevice;

/// How far apart the keys are that are inserted one after another: each is the only one of its slot.
pub const STEP: u32 = 256;

/// What some insertions plan: the last entry, the cells, and which cells are free behind them.
#[derive(Drop)]
pub struct Planned {
    pub last: Option<Entry>,
    pub cells: Vec<(u32, Cell)>,
    pub pool: Pool,
}

/// Why nothing was planned.
#[derive(Clone, Copy)]
pub enum Unplanned {
    /// The list, or the free cells, don't lie where they could be planned.
    NoAsk,
    Fault(Fault),
    NoMemory,
}

/// Plans so many keys over a device, one after another, the first one this.
pub fn plan_keys(
    alloc: Global,
    device: &mut MemoryDevice,
    list: List,
    pool: Pool,
    first: u32,
    count: u32,
) -> Result<Planned, Unplanned> {
    let _within = pool.room();
    let floor = list.bounds.pool;
    if floor < 256
        || list.head > floor - 256
        || pool.next < floor
        || device.cells() < pool.next
        || count > 1_000
        || pool.room() < STEP * count
        || first > u32::MAX - STEP * count
    {
        return Err(Unplanned::NoAsk);
    }
    let mut own = PlannedCells::new(alloc);
    let mut overlay = Overlay::new(Direct::new(device), &mut own, pool.next);
    plan_over(alloc, &mut overlay, list, pool, first, count)
}

/// Plans keys in an overlay in which nothing is planned.
fn plan_over<V: View>(
    alloc: Global,
    overlay: &mut Overlay<'_, V>,
    list: List,
    pool: Pool,
    first: u32,
    count: u32,
) -> Result<Planned, Unplanned>
    requires first { first + 256 * count < 2 ^ 32 }
    requires head { list.head + 256 ≤ list.bounds.pool }
    requires floor { list.bounds.pool ≤ (of_overlay V.seen overlay.old).fresh }
    requires fresh { (of_overlay V.seen overlay.old).fresh ≤ pool.next }
    requires room { 256 * count ≤ free_cells pool }
    requires nothing { (cell : ℕ) → (of_overlay V.seen overlay.old).planned cell ≡ None }
{
    let mut pool = pool;
    let mut last = None;
    let mut done = 0;
    while done < count {
        let entry = NewEntry {
            key: first + STEP * done,
            last: 255,
            tag: TAG,
        };
        match insert(overlay, &mut pool, list.head, list.bounds.pool, entry) {
            Ok(entry) => last = Some(entry),
            Err(fault) => return Err(why(fault)),
        }
        done += 1;
    }
    let mut cells = Vec::new(alloc);
    for (at, cell) in overlay.planned() {
        if cells.push((*at, *cell)).is_err() {
            return Err(Unplanned::NoMemory);
        }
    }
    Ok(Planned { last, cells, pool })
}

fn why(fault: GrowthFault) -> Unplanned {
    match fault {
        GrowthFault::Fault(fault) => Unplanned::Fault(fault),
        GrowthFault::NoMemory(_) => Unplanned::NoMemory,
    }
}

/// A list of keys 0, 256, 512 and so on that grows, one key at a time.
#[derive(Clone, Copy)]
pub struct Growing {
    pub list: List,
    /// How many keys it has.
    pub keys: u32,
    /// The cells that are free.
    pub pool: Pool,
}

/// What the keys cost that a list grew by.
#[derive(Clone, Copy)]
pub struct Cost {
    /// How many cells a key took, those that were granted and those that were planned: the least and the most.
    pub least: u64,
    pub most: u64,
    /// The most reads that a key took.
    pub reads: u64,
}

impl Cost {
    pub fn new() -> Cost {
        Cost {
            least: u64::MAX,
            most: 0,
            reads: 0,
        }
    }

    /// Takes one key more.
    fn take(&mut self, cells: u64, reads: u64) {
        self.least = self.least.min(cells);
        self.most = self.most.max(cells);
        self.reads = self.reads.max(reads);
    }
}

/// Lets a list grow by so many keys, each planned by itself and then written. Answers where free cells begin.
pub fn grow(
    alloc: Global,
    device: &mut MemoryDevice,
    growing: &mut Growing,
    cost: &mut Cost,
    count: u32,
) -> Result<Answer, AllocError> {
    for _ in 0..count {
        let answer = grow_by_one(alloc, device, growing, cost)?;
        if !matches!(answer, Answer::Done) {
            return Ok(answer);
        }
    }
    Ok(Answer::Number(u64::from(growing.pool.next)))
}

/// Lets a list grow by its next key.
fn grow_by_one(
    alloc: Global,
    device: &mut MemoryDevice,
    growing: &mut Growing,
    cost: &mut Cost,
) -> Result<Answer, AllocError> {
    let key = growing.keys.saturating_mul(STEP);
    let before = reads_so_far(device)?;
    let planned = match plan_keys(alloc, device, growing.list, growing.pool, key, 1) {
        Ok(planned) => planned,
        Err(why) => return of_unplanned(why),
    };
    let reads = reads_so_far(device)?.saturating_sub(before);
    if !put_planned(device, planned.cells.as_slice())? || !make_sure(device) {
        return Ok(Answer::NoAsk);
    }
    let granted = planned.pool.next.saturating_sub(growing.pool.next);
    let cells = u64::from(granted).saturating_add(planned.cells.len() as u64);
    cost.take(cells, reads);
    growing.keys = growing.keys.saturating_add(1);
    growing.pool = planned.pool;
    Ok(Answer::Done)
}

/// The answer where nothing was planned.
pub fn of_unplanned(why: Unplanned) -> Result<Answer, AllocError> {
    match why {
        Unplanned::NoAsk => Ok(Answer::NoAsk),
        Unplanned::Fault(fault) => Ok(Answer::Fault(fault)),
        Unplanned::NoMemory => Err(AllocError),
    }
}

/// How many reads the device was asked for.
pub fn reads_so_far(device: &mut MemoryDevice) -> Result<u64, AllocError> {
    if device.reserve(1).is_err() {
        return Err(AllocError);
    }
    device.begin();
    match device.marks().last() {
        Some(mark) => Ok(mark.reads),
        None => Ok(0),
    }
}
