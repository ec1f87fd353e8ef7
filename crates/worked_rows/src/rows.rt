//! Which rows of a text agree.
//!
//! Before any line but those that tell of an answer and of changes, nothing of the answer may be left: what a row does not
//! tell of, it denies. Nor may a row end before the command for which it gives or plans something, or without a device.
ghost use Rattle.cell_types.specs.declared.geometry.TheConstants.{MAX_CELLS};

use crate::lines::written_out;
use crate::steps::{Act, Step, step_of};
use crate::world::World;
use cell_types::{Cell, MAX_CELLS};
use row_files::{Judge, Tally};
use std::alloc::{AllocError, Global};
use worm_device::Device;

/// Commands over devices in memory, and what they must answer.
pub struct Rows;

impl Judge for Rows {
    fn judge(alloc: Global, text: &str) -> Result<Tally, AllocError> {
        carry_out_rows(alloc, text)
    }
}

/// Carries out the rows of a text.
fn carry_out_rows(alloc: Global, text: &str) -> Result<Tally, AllocError> {
    let lines = written_out(alloc, text)?;
    let mut rows: usize = 0;
    let mut wrong = Vec::new(alloc);
    let mut row = Row::new(alloc);
    for line in &lines {
        if let Some(name) = line.text.as_str().strip_prefix("row ") {
            rows = rows.saturating_add(1);
            push(&mut wrong, row.begin(alloc, name)?)?;
        } else {
            row.carry_out(alloc, line.number, line.text.as_str())?;
        }
    }
    push(&mut wrong, row.begin(alloc, "")?)?;
    Ok(Tally { rows, wrong })
}

/// Puts a line behind these, if there is one.
fn push(wrong: &mut Vec<String>, line: Option<String>) -> Result<(), AllocError> {
    if let Some(line) = line {
        wrong.push(line)?;
    }
    Ok(())
}

/// The cells of a device that `save` kept: how many it had, and those that were written.
#[derive(Drop)]
struct Saved {
    cells: u32,
    written: Vec<(u32, Cell)>,
}

/// A row that is carried out.
#[derive(Drop)]
struct Row {
    name: String,
    world: Option<World>,
    /// What was set aside: the source of copies.
    aside: Option<World>,
    /// The first line that is not so.
    wrong: Option<String>,
    saved: Option<Saved>,
}

impl Row {
    fn new(alloc: Global) -> Row {
        Row {
            name: String::new(alloc),
            world: None,
            aside: None,
            wrong: None,
            saved: None,
        }
    }

    /// Begins a row of this name, and says what was wrong with the one before.
    fn begin(&mut self, alloc: Global, name: &str) -> Result<Option<String>, AllocError> {
        if self.wrong.is_none() && self.has_more() {
            self.wrong = Some(self.told(alloc, "there is more")?);
        }
        if self.wrong.is_none() && self.world.is_none() && !self.name.is_empty() {
            self.wrong = Some(self.told(alloc, "there is no device")?);
        }
        self.name = String::from_str(alloc, name)?;
        self.world = None;
        self.aside = None;
        Ok(self.wrong.take())
    }

    /// Whether something of the last answer was not told, or something is given and planned for no command.
    fn has_more(&self) -> bool {
        match &self.world {
            Some(world) => world.has_more() || world.is_waiting(),
            None => false,
        }
    }

    /// What is said of the row: what is not so, and what is left of the last answer.
    fn told(&self, alloc: Global, what: &str) -> Result<String, AllocError> {
        let name = self.name.as_str();
        match &self.world {
            Some(world) => {
                let left = world.left(alloc)?;
                format!(in alloc; "{name}: {what} ({left})")
            }
            None => format!(in alloc; "{name}: {what}"),
        }
    }

    /// Carries out a line, unless an earlier one was not so.
    fn carry_out(&mut self, alloc: Global, number: usize, text: &str) -> Result<(), AllocError> {
        if self.wrong.is_some() {
            return Ok(());
        }
        let is_so = match step_of(text) {
            Some(step) => self.is_so(alloc, &step)?,
            None => false,
        };
        if !is_so {
            let line = format!(in alloc; "line {number}: {text}")?;
            self.wrong = Some(self.told(alloc, line.as_str())?);
        }
        Ok(())
    }

    /// Whether a line is so.
    fn is_so(&mut self, alloc: Global, step: &Step<'_>) -> Result<bool, AllocError> {
        match step {
            Step::Nothing => return Ok(true),
            Step::Device(cells) => return self.begin_device(alloc, *cells),
            Step::Saved => return self.begin_saved(alloc),
            Step::Aside => return Ok(self.set_aside()),
            _ => {}
        }
        let Some(world) = &mut self.world else {
            return Ok(false);
        };
        match step {
            Step::Answer(answer) => world.is_answered(alloc, answer),
            Step::Changed(change) => Ok(world.next_change() == *change),
            _ if world.has_more() => Ok(false),
            Step::Act(Act::Command { words, times }) => match &mut self.aside {
                Some(aside) => world.carry_out(alloc, words, *times, Some(&mut aside.device)),
                None => world.carry_out(alloc, words, *times, None),
            },
            Step::Act(act) => is_done(alloc, world, act),
            // `Save`: the others are answered above.
            _ => {
                self.saved = Some(saved_of(alloc, world)?);
                Ok(true)
            }
        }
    }

    /// Begins a blank device.
    fn begin_device(&mut self, alloc: Global, cells: u32) -> Result<bool, AllocError> {
        if cells == 0 || cells > MAX_CELLS || self.has_more() {
            return Ok(false);
        }
        self.world = Some(World::new(alloc, cells)?);
        Ok(true)
    }

    /// Sets the device at hand aside, and takes the one that was there.
    fn set_aside(&mut self) -> bool {
        if self.world.is_none() || self.has_more() {
            return false;
        }
        let world = self.world.take();
        self.world = self.aside.take();
        self.aside = world;
        true
    }

    /// Begins a device with the cells that were saved.
    fn begin_saved(&mut self, alloc: Global) -> Result<bool, AllocError> {
        if self.has_more() {
            return Ok(false);
        }
        let Some(saved) = &self.saved else {
            return Ok(false);
        };
        if saved.cells == 0 || saved.cells > MAX_CELLS {
            return Ok(false);
        }
        let mut world = World::new(alloc, saved.cells)?;
        for &(at, value) in &saved.written {
            let _ = world.write_foreign(at, value)?;
        }
        self.world = Some(world);
        Ok(true)
    }
}

/// The cells of a device.
fn saved_of(alloc: Global, world: &mut World) -> Result<Saved, AllocError> {
    let mut written = Vec::new(alloc);
    let cells = world.device.cells();
    for at in 0..cells {
        if let Some(value) = world.found(at) {
            written.push((at, value))?;
        }
    }
    Ok(Saved { cells, written })
}

/// Does what a line asks for, and says whether it is so.
fn is_done(alloc: Global, world: &mut World, act: &Act<'_>) -> Result<bool, AllocError> {
    match act {
        Act::Room(changes) => world.room = *changes,
        Act::Put(at, value) => return world.write_foreign(*at, *value),
        Act::Give(bytes) => bytes.push_onto(alloc, &mut world.given)?,
        Act::Plan(plan) => world.plans.push(*plan)?,
        // Carried out above, with what is aside.
        Act::Command { .. } => return Ok(false),
        Act::Cell(at, value) => return Ok(world.found(*at) == Some(*value)),
        Act::Blank(from, to) => return Ok(world.are_blank(*from, *to)),
        Act::Written(count) => return Ok(world.written() == *count),
        Act::Crash { keep, kept, unsure } => {
            return Ok(world.crash(alloc, keep)? == Some((*kept, *unsure)));
        }
    }
    Ok(true)
}
