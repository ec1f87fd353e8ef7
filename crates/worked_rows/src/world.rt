//! The device of a row, what the next command is given, and what the last one answered.
ghost use Rattle.std.specs.Prelude.{◌≤◌};
ghost use Rattle.cell_types.specs.declared.geometry.TheConstants.{MAX_CELLS};

use crate::steps::{Answer, Bytes, Plan};
use cell_types::{Cell, NoMemory};
use host_ports::{MemorySink, MemorySource};
use record_top::{run, run_two};
use row_files::number;
use std::alloc::{AllocError, Global};
use std::fmt::Display;
use worm_device::{Device, Written};
use worm_memory::{Change, MemoryDevice};

/// Room for how many changes a device gets before each command, if no line says another.
const CHANGES: u32 = 200;

/// How many bytes a command may put out: as many as the longest receipt of a row takes, and more.
const SINK_BYTES: u32 = 4_194_304;

/// The device of a row, what the next command is given, and what the last one answered.
#[derive(Drop)]
pub struct World {
    pub device: MemoryDevice,
    pub room: u32,
    /// What the next command gets from its source, and what befalls it.
    pub given: Vec<u8>,
    pub plans: Vec<Plan>,
    /// What was put out, how many bytes of that were told, and the status and the line of a refusal.
    put: Vec<u8>,
    read: usize,
    refused: Option<String>,
    /// How many changes there were before the last command, and how many of those since were told.
    before: usize,
    told: usize,
}

impl World {
    /// A blank device of so many cells.
    pub fn new(alloc: Global, cells: u32) -> Result<World, AllocError>
        requires some { 1 ≤ cells }
        requires most { cells ≤ MAX_CELLS }
    {
        Ok(World {
            device: MemoryDevice::new(alloc, cells).map_err(lack)?,
            room: CHANGES,
            given: Vec::new(alloc),
            plans: Vec::new(alloc),
            put: Vec::new(alloc),
            read: 0,
            refused: None,
            before: 0,
            told: 0,
        })
    }

    /// What stands in a cell, if it is on the device.
    pub fn found(&mut self, at: u32) -> Option<Cell> {
        if at >= self.device.cells() {
            return None;
        }
        self.device.read(at).ok().flatten()
    }

    /// Whether the cells from one number to another are blank.
    pub fn are_blank(&mut self, from: u32, to: u32) -> bool {
        for at in from..to.saturating_add(1) {
            if self.found(at).is_some() {
                return false;
            }
        }
        true
    }

    /// How many cells are written.
    pub fn written(&mut self) -> u32 {
        let mut count: u32 = 0;
        for at in 0..self.device.cells() {
            if self.found(at).is_some() {
                count = count.saturating_add(1);
            }
        }
        count
    }

    /// Somebody else writes a cell. Says whether it was blank, and is on the device.
    pub fn write_foreign(&mut self, at: u32, value: Cell) -> Result<bool, AllocError> {
        if at >= self.device.cells() {
            return Ok(false);
        }
        self.device.reserve(1).map_err(lack)?;
        Ok(matches!(self.device.foreign(at, value), Ok(Written::Done)))
    }

    /// A crash that keeps these of the unsure cells. Says how many it kept, and of how many.
    pub fn crash(&mut self, alloc: Global, keep: &str) -> Result<Option<(u32, u32)>, AllocError> {
        let mut cells = Vec::new(alloc);
        for at in keep.split_whitespace() {
            let Some(at) = number(at) else {
                return Ok(None);
            };
            cells.push(at)?;
        }
        self.device.reserve(self.room).map_err(lack)?;
        Ok(match self.device.crash(&cells) {
            Ok(crash) => Some((crash.kept, crash.unsure)),
            Err(_) => None,
        })
    }

    /// Carries out the words, of which the last one is so many times that text, over what is given and by what is planned,
    /// and keeps the answer. A copy is one from the other device to this. Says whether all of the plan is of this device.
    pub fn carry_out(
        &mut self,
        alloc: Global,
        words: &str,
        times: u32,
        other: Option<&mut MemoryDevice>,
    ) -> Result<bool, AllocError> {
        let words = words_of(alloc, words, times)?;
        let mut source = self.source(alloc)?;
        let mut sink = self.sink(alloc)?;
        begin(&mut self.device, self.room)?;
        let is_planned = self.plan()?;
        self.before = self.device.changes().len();
        self.told = 0;
        let is_copy = words.first().is_some_and(|word| word.as_str() == "copy");
        self.refused = match other {
            Some(other) if is_copy => {
                begin(other, self.room)?;
                match run_two(alloc, &words, other, &mut self.device, &mut sink) {
                    Ok(()) => None,
                    Err(refusal) => Some(line_of(alloc, refusal.status(), &refusal)?),
                }
            }
            _ => match run(alloc, &words, &mut self.device, &mut source, &mut sink) {
                Ok(()) => None,
                Err(refusal) => Some(line_of(alloc, refusal.status(), &refusal)?),
            },
        };
        self.put = bytes_of(alloc, sink.bytes())?;
        self.read = 0;
        begin(&mut self.device, self.room)?;
        Ok(is_planned)
    }

    /// A source of what is given, which the next command has no more, and whose calls fail as planned.
    fn source(&mut self, alloc: Global) -> Result<MemorySource, AllocError> {
        let mut source = MemorySource::new(bytes_of(alloc, &self.given)?);
        self.given.clear();
        for plan in &self.plans {
            if let Plan::SourceFails(call) = *plan {
                source.fail_at(call);
            }
        }
        Ok(source)
    }

    /// A sink with room for many lines, whose calls fail as planned.
    fn sink(&mut self, alloc: Global) -> Result<MemorySink, AllocError> {
        let mut sink = MemorySink::new(alloc);
        sink.reserve(SINK_BYTES).map_err(lack)?;
        for plan in &self.plans {
            if let Plan::SinkFails(call) = *plan {
                sink.fail_at(call);
            }
        }
        Ok(sink)
    }

    /// Plans for the device what befalls the next command. Says whether each cell of it is on the device.
    fn plan(&mut self) -> Result<bool, AllocError> {
        let mut is_planned = true;
        for plan in &self.plans {
            is_planned = plan_for(&mut self.device, plan)? && is_planned;
        }
        self.plans.clear();
        Ok(is_planned)
    }

    /// The change that comes next, of those that the last command made.
    pub fn next_change(&mut self) -> Option<Change> {
        let at = self.before.saturating_add(self.told);
        self.told = self.told.saturating_add(1);
        self.device.changes().get(at).copied()
    }

    /// What was put out and not told.
    fn rest(&self) -> &[u8] {
        self.put.get(self.read..).unwrap_or(&[])
    }

    /// Whether something of the last answer was not told.
    pub fn has_more(&self) -> bool {
        !self.rest().is_empty() || self.refused.is_some()
    }

    /// Whether something is given or planned for a next command.
    pub fn is_waiting(&self) -> bool {
        !self.given.is_empty() || !self.plans.is_empty()
    }

    /// Whether the answer goes on so, and counts that as told.
    pub fn is_answered(&mut self, alloc: Global, answer: &Answer<'_>) -> Result<bool, AllocError> {
        match answer {
            Answer::PutsOut(bytes) => self.puts_out(alloc, bytes),
            Answer::PutsPartOf(line) => {
                let line = format!(in alloc; "{line}\n")?;
                let is_part = line.as_bytes().starts_with(self.rest());
                self.read = self.put.len();
                Ok(is_part)
            }
            Answer::Refuses(line) => {
                let refused = self.refused.take();
                Ok(refused.is_some_and(|it| it.as_str() == *line))
            }
            Answer::IsOneOf(answers) => self.is_one_of(alloc, answers),
        }
    }

    /// Whether what was put out goes on with these bytes.
    fn puts_out(&mut self, alloc: Global, bytes: &Bytes<'_>) -> Result<bool, AllocError> {
        let mut wanted = Vec::new(alloc);
        bytes.push_onto(alloc, &mut wanted)?;
        let is_so = self.rest().starts_with(&wanted);
        if is_so {
            self.read = self.read.saturating_add(wanted.len());
        }
        Ok(is_so)
    }

    /// Whether the whole answer is one of these, between which there is `or`. None is one of which something was told
    /// already, or that `left` does not tell from every other.
    fn is_one_of(&mut self, alloc: Global, answers: &str) -> Result<bool, AllocError> {
        let is_plain = |byte: &u8| byte.is_ascii() && *byte != b'/' && *byte != b'!';
        if self.read > 0 || !self.put.iter().all(is_plain) {
            return Ok(false);
        }
        let found = self.left(alloc)?;
        self.read = self.put.len();
        self.refused = None;
        Ok(answers.split(" or ").any(|it| it == found.as_str()))
    }

    /// What is left of the answer, in a line: `/` is a newline, `!` stands before a refusal, and `?` for what is not ASCII.
    pub fn left(&self, alloc: Global) -> Result<String, AllocError> {
        let mut text = String::new(alloc);
        for byte in self.rest() {
            text.push(match *byte {
                b'\n' => '/',
                byte if byte.is_ascii() => char::from(byte),
                _ => '?',
            })?;
        }
        if let Some(line) = &self.refused {
            text.push('!')?;
            text.push_str(line.as_str())?;
        }
        Ok(text)
    }
}

/// The same, as others say it.
fn lack(_: NoMemory) -> AllocError {
    AllocError
}

/// The words of a command, between bars, the last one so many times.
fn words_of(alloc: Global, text: &str, times: u32) -> Result<Vec<String>, AllocError> {
    let mut all = Vec::new(alloc);
    let last = match text.rsplit_once('|') {
        Some((before, last)) => {
            push_words(alloc, before, &mut all)?;
            last
        }
        None => text,
    };
    all.push(repeated(alloc, last, times)?)?;
    Ok(all)
}

/// Puts the words of a text, between bars, behind others.
fn push_words(alloc: Global, text: &str, all: &mut Vec<String>) -> Result<(), AllocError> {
    for word in text.split('|') {
        all.push(String::from_str(alloc, word)?)?;
    }
    Ok(())
}

/// A text so many times.
fn repeated(alloc: Global, text: &str, times: u32) -> Result<String, AllocError> {
    let mut all = String::new(alloc);
    for _ in 0..times {
        all.push_str(text)?;
    }
    Ok(all)
}

/// The same bytes.
fn bytes_of(alloc: Global, bytes: &[u8]) -> Result<Vec<u8>, AllocError> {
    let mut all = Vec::new(alloc);
    all.extend_from_slice(bytes)?;
    Ok(all)
}

/// The status and the line of a refusal.
fn line_of(alloc: Global, status: u8, refusal: &impl Display) -> Result<String, AllocError> {
    format!(in alloc; "{status} {refusal}")
}

/// Begins a command on a device, with room for so many changes.
fn begin(device: &mut MemoryDevice, room: u32) -> Result<(), AllocError> {
    device.reserve(room).map_err(lack)?;
    device.begin();
    Ok(())
}

/// Plans for the device what befalls the command that has begun. Says whether its cell is on the device.
fn plan_for(device: &mut MemoryDevice, plan: &Plan) -> Result<bool, AllocError> {
    match *plan {
        Plan::Fails(moment) => device.fail_at(moment).map_err(lack)?,
        Plan::Stops(moment) => device.stop_after(moment),
        Plan::Writes(moment, at, value) => {
            if at >= device.cells() {
                return Ok(false);
            }
            device.foreign_before(moment, at, value).map_err(lack)?;
        }
        Plan::SourceFails(_) | Plan::SinkFails(_) => {}
    }
    Ok(true)
}
