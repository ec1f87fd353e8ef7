//! The device at hand, and which call a line is for.
ghost use Rattle.std.specs.Prelude.{◌≤◌};
ghost use Rattle.cell_types.specs.declared.geometry.TheConstants.{MAX_CELLS};

use crate::answer::{Answer, told, told_fault};
use crate::blocks::{
    first, first_kept, first_known, next_kept, next_known, read_entry, read_pointer, span_of,
};
use crate::growing::{Cost, Growing, grow, of_unplanned, plan_keys, reads_so_far};
use crate::laying::{Keys, make_sure, put, put_front, put_jumps};
use crate::searches::{List, find, lost_key, scan};
use crate::sweeps::{Forged, try_insertions, try_searches};
use crate::terms::{Question, ask, ask_whether_it_has};
use cell_pool::Pool;
use cell_types::{Cell, MAX_CELLS};
use jump_index::Bounds;
use row_files::{address_and_cell, counted, number};
use std::alloc::{AllocError, Global};
use worm_device::Device;
use worm_memory::MemoryDevice;

/// The device at hand, and what lines have said of it.
#[derive(Drop)]
pub struct World {
    device: MemoryDevice,
    /// The list at hand, as it grows, and the cells that are free.
    growing: Growing,
    /// What the keys cost that it grew by last, and the reads of those before.
    cost: Cost,
    reads_before: u64,
    /// What was planned last.
    planned: Vec<(u32, Cell)>,
    forged: Forged,
    /// How many reads the last line took.
    reads: u64,
}

impl World {
    /// A device of one cell.
    pub fn new(alloc: Global) -> Result<World, AllocError> {
        Ok(World {
            device: new_device(alloc, 1)?,
            growing: Growing {
                list: List {
                    head: 0,
                    bounds: Bounds { pool: 0, edge: 0 },
                },
                keys: 0,
                pool: Pool::over(0, 0),
            },
            cost: Cost::new(),
            reads_before: 0,
            planned: Vec::new(alloc),
            forged: Forged {
                keys: [0; 2],
                targets: [0; 4],
            },
            reads: 0,
        })
    }

    /// Carries out a line, and tells what came.
    pub fn carry_out(&mut self, alloc: Global, line: &str) -> Result<String, AllocError> {
        let (word, rest) = line.split_once(' ').unwrap_or((line, ""));
        if word == "reads" {
            return told(alloc, self.reads_within(rest));
        }
        let before = reads_so_far(&mut self.device)?;
        let said = if word == "words" {
            self.ask_words(alloc, rest)?
        } else {
            match self.answer(alloc, word, rest)? {
                Answer::Fault(fault) => told_fault(alloc, &fault)?,
                answer => told(alloc, answer)?,
            }
        };
        self.reads = reads_so_far(&mut self.device)?.saturating_sub(before);
        Ok(said)
    }

    /// What comes of a line.
    fn answer(&mut self, alloc: Global, word: &str, rest: &str) -> Result<Answer, AllocError> {
        match word {
            "put" => self.put_cell(rest),
            "has" => self.ask_whether_it_has(alloc, rest),
            _ => match numbers_of(alloc, rest)? {
                Some(numbers) => self.ask(alloc, word, numbers.as_slice()),
                None => Ok(Answer::NoAsk),
            },
        }
    }

    /// How many reads the last line took; or whether they were at most so many.
    fn reads_within(&self, rest: &str) -> Answer {
        if rest.is_empty() {
            return Answer::Number(self.reads);
        }
        match rest.parse::<u64>() {
            Ok(most) => Answer::Is(self.reads <= most),
            Err(_) => Answer::NoAsk,
        }
    }

    /// Writes a cell.
    fn put_cell(&mut self, rest: &str) -> Result<Answer, AllocError> {
        match address_and_cell(rest) {
            Some((at, value)) => Ok(done(put(&mut self.device, at, value)?)),
            None => Ok(Answer::NoAsk),
        }
    }

    /// Asks lists of words, and tells what they answer.
    fn ask_words(&mut self, alloc: Global, rest: &str) -> Result<String, AllocError> {
        match question_of(rest, self.growing.list.bounds) {
            Some((question, text)) => ask(alloc, &mut self.device, question, text),
            None => told(alloc, Answer::NoAsk),
        }
    }

    /// Asks the list of a word whether it has a slot.
    fn ask_whether_it_has(&mut self, alloc: Global, rest: &str) -> Result<Answer, AllocError> {
        match question_of(rest, self.growing.list.bounds) {
            Some((question, text)) => {
                ask_whether_it_has(alloc, &mut self.device, question, text)
            }
            None => Ok(Answer::NoAsk),
        }
    }

    /// Asks a block or the list, or what is said of them.
    fn ask(&mut self, alloc: Global, word: &str, numbers: &[u32]) -> Result<Answer, AllocError> {
        let device = &mut self.device;
        let list = self.growing.list;
        Ok(match (word, numbers) {
            ("entry", &[block, place]) => read_entry(device, block, place),
            ("pointer", &[block, level, digit]) => read_pointer(device, block, level, digit),
            ("span", &[greatest, key]) => span_of(greatest, key),
            ("first", &[block, key]) => first(device, block, key),
            ("known", &[block, key]) => first_known(device, block, key),
            ("known", &[block, before, key]) => next_known(device, block, before, key),
            ("kept", &[block, key]) => first_kept(device, block, key),
            ("kept", &[block, before, key]) => next_kept(device, block, before, key),
            ("find", &[key]) => find(device, list, key),
            ("scan", &[]) => scan(device, list),
            ("lost", &[from, first, step, count]) => {
                lost_key(device, list, from, Keys { first, step, count })
            }
            _ => self.plan(alloc, word, numbers)?,
        })
    }

    /// Asks what is planned, and lets the list grow.
    fn plan(&mut self, alloc: Global, word: &str, numbers: &[u32]) -> Result<Answer, AllocError> {
        let pool = &mut self.growing.pool;
        Ok(match (word, numbers) {
            ("grant", &[size]) if size > 0 => of_number(pool.grant(size)),
            ("room", &[]) => Answer::Number(u64::from(pool.room())),
            ("free", &[]) => Answer::Number(u64::from(pool.next())),
            ("plan", &[first, count]) => self.plan_keys(alloc, first, count)?,
            ("planned", &[]) => Answer::Number(self.planned.len() as u64),
            ("planned", &[at]) => self.planned_at(at),
            ("grow", &[count]) => self.grow(alloc, count)?,
            ("least", &[]) => Answer::Number(self.cost.least),
            ("most", &[]) => Answer::Number(self.cost.most),
            ("slower", &[by]) => {
                Answer::Is(self.cost.reads > self.reads_before.saturating_add(u64::from(by)))
            }
            _ => self.try_forged(alloc, word, numbers)?,
        })
    }

    /// Plans keys, and keeps what is planned.
    fn plan_keys(&mut self, alloc: Global, first: u32, count: u32) -> Result<Answer, AllocError> {
        let Growing { list, pool, .. } = self.growing;
        match plan_keys(alloc, &mut self.device, list, pool, first, count) {
            Ok(planned) => {
                self.growing.pool = planned.pool;
                self.planned = planned.cells;
                Ok(match planned.last {
                    Some(entry) => Answer::Entry(entry),
                    None => Answer::Nothing,
                })
            }
            Err(why) => of_unplanned(why),
        }
    }

    /// What was planned last at a cell.
    fn planned_at(&self, at: u32) -> Answer {
        for &(planned, cell) in &self.planned {
            if planned == at {
                return Answer::Cell(cell);
            }
        }
        Answer::Nothing
    }

    /// Lets the list grow.
    fn grow(&mut self, alloc: Global, count: u32) -> Result<Answer, AllocError> {
        self.reads_before = self.cost.reads;
        self.cost = Cost::new();
        grow(
            alloc,
            &mut self.device,
            &mut self.growing,
            &mut self.cost,
            count,
        )
    }

    /// Tries forged cells, or changes what is at hand.
    fn try_forged(
        &mut self,
        alloc: Global,
        word: &str,
        numbers: &[u32],
    ) -> Result<Answer, AllocError> {
        let device = &mut self.device;
        let (growing, forged) = (self.growing, self.forged);
        match (word, numbers) {
            ("searches", &[block, a, b, c, d, e]) => {
                try_searches(device, growing.list, forged, block, &[a, b, c, d, e])
            }
            ("insertions", &[number]) => {
                try_insertions(alloc, device, &growing, forged, number, false)
            }
            ("spans", &[number]) => try_insertions(alloc, device, &growing, forged, number, true),
            _ => Ok(done(self.lay(alloc, word, numbers)?)),
        }
    }

    /// Changes what is at hand. Says whether that could be done.
    fn lay(&mut self, alloc: Global, word: &str, numbers: &[u32]) -> Result<bool, AllocError> {
        let device = &mut self.device;
        match (word, numbers) {
            ("device", &[cells]) => return self.begin(alloc, cells),
            ("front", &[block, first, step, count]) => {
                return put_front(device, block, Keys { first, step, count });
            }
            ("jumps", &[from, count, target]) => return put_jumps(device, from, count, target),
            ("sure", &[]) => return Ok(make_sure(device)),
            ("list", &[head, pool, edge]) => {
                let bounds = Bounds { pool, edge };
                self.growing.list = List { head, bounds };
                self.growing.keys = 0;
            }
            ("pool", &[next, end]) if next <= end => self.growing.pool = Pool::over(next, end),
            ("forged", &[rising, falling, a, b, c, d]) => {
                let (keys, targets) = ([rising, falling], [a, b, c, d]);
                self.forged = Forged { keys, targets };
            }
            _ => return Ok(false),
        }
        Ok(true)
    }

    /// Begins a blank device.
    fn begin(&mut self, alloc: Global, cells: u32) -> Result<bool, AllocError> {
        if cells == 0 || cells > MAX_CELLS {
            return Ok(false);
        }
        self.device = new_device(alloc, cells)?;
        Ok(true)
    }
}

/// A device of so many blank cells.
fn new_device(alloc: Global, cells: u32) -> Result<MemoryDevice, AllocError>
    requires some { 1 ≤ cells }
    requires most { cells ≤ MAX_CELLS }
{
    match MemoryDevice::new(alloc, cells) {
        Ok(device) => Ok(device),
        Err(_) => Err(AllocError),
    }
}

/// Whether something could be done, as an answer.
fn done(is_done: bool) -> Answer {
    if is_done { Answer::Done } else { Answer::NoAsk }
}

fn of_number(number: Option<u32>) -> Answer {
    match number {
        Some(number) => Answer::Number(u64::from(number)),
        None => Answer::Nothing,
    }
}

/// The numbers of a line, between spaces.
fn numbers_of(alloc: Global, text: &str) -> Result<Option<Vec<u32>>, AllocError> {
    let mut all = Vec::new(alloc);
    for word in text.split_whitespace() {
        let Some(one) = number(word) else {
            return Ok(None);
        };
        all.push(one)?;
    }
    Ok(Some(all))
}

/// The question of a line: the horizon, the list's number and the slot; and the words behind them.
fn question_of(text: &str, bounds: Bounds) -> Option<(Question, &str)> {
    let (horizon, text) = counted(text)?;
    let (which, text) = counted(text)?;
    let (slot, text) = counted(text)?;
    let question = Question {
        horizon,
        which,
        slot,
        bounds,
    };
    Some((question, text))
}
