//! What a row has at hand.
ghost use Rattle.std.specs.Prelude.{◌≤◌};
ghost use Rattle.cell_types.specs.declared.geometry.TheConstants.{MAX_CELLS};

use crate::acts::{Act, Call, Content, Left, Make};
use crate::answers::Answer;
use crate::ports::Ports;
use crate::{devices, memories, tables};
use cell_types::{MAX_CELLS, NoMemory};
use host_files::{FileDevice, Leaving, MemoryFile, Pages};
use read_cache::CellCache;
use std::alloc::{AllocError, Global};
use worm_memory::MemoryDevice;

/// Room for how many changes a file in memory gets.
const FILE_CHANGES: u32 = 64;

/// What a row has at hand: a device in memory, a device over a file, or both, of which each has to answer alike; memory for
/// kept cells; a source and a sink.
#[derive(Drop)]
pub struct Bench {
    memory: Option<MemoryDevice>,
    file: Option<FileDevice<MemoryFile>>,
    cache: Option<CellCache>,
    ports: Ports,
}

impl Bench {
    /// Nothing is at hand.
    pub fn new(alloc: Global) -> Bench {
        Bench {
            memory: None,
            file: None,
            cache: None,
            ports: Ports::new(alloc),
        }
    }

    /// Nothing is at hand any more.
    pub fn clear(&mut self, alloc: Global) {
        self.memory = None;
        self.file = None;
        self.cache = None;
        self.ports = Ports::new(alloc);
    }

    /// What comes of a line.
    pub fn answer(&mut self, alloc: Global, act: &Act<'_>) -> Result<Answer, AllocError> {
        match act {
            Act::Ask(question) => tables::answer(alloc, question),
            Act::Make(make) => self.make(alloc, make),
            Act::Call(call) => self.call(alloc, call),
            Act::Size => Ok(match &self.file {
                Some(device) => Answer::Number(device.file().bytes().len() as u64),
                None => Answer::Nothing,
            }),
            Act::Plan(plan) => match &mut self.memory {
                Some(device) => memories::carry_out(alloc, device, &mut self.cache, plan),
                None => Ok(Answer::Nothing),
            },
            Act::Port(port) => self.ports.carry_out(alloc, port),
        }
    }

    /// What a call of the device at hand comes to. Where both are at hand and do not answer alike, both answers.
    fn call(&mut self, alloc: Global, call: &Call<'_>) -> Result<Answer, AllocError> {
        match (&mut self.memory, &mut self.file) {
            (Some(memory), Some(file)) => {
                let one = devices::call(alloc, memory, call)?.text(alloc)?;
                let other = devices::call(alloc, file, call)?.text(alloc)?;
                if one.as_str() == other.as_str() {
                    return Ok(Answer::Text(one));
                }
                Ok(Answer::Text(format!(in alloc; "in memory {one}, of the file {other}")?))
            }
            (Some(memory), None) => devices::call(alloc, memory, call),
            (None, Some(file)) => devices::call(alloc, file, call),
            (None, None) => Ok(Answer::Nothing),
        }
    }

    /// Makes something to have at hand, in the place of what was.
    fn make(&mut self, alloc: Global, make: &Make) -> Result<Answer, AllocError> {
        match *make {
            Make::Memory(cells, changes) => {
                self.file = None;
                self.memory = memory(alloc, cells, changes)?;
                Ok(made(self.memory.is_some()))
            }
            Make::File(content) => {
                self.memory = None;
                self.file = file(alloc, &content)?;
                Ok(made(self.file.is_some()))
            }
            Make::Both(cells) => {
                self.memory = memory(alloc, cells, cells.saturating_mul(2))?;
                let size = cells.saturating_mul(16);
                let content = Content {
                    size,
                    is_numbered: false,
                    fails: 0,
                    leaving: Left::Nothing,
                };
                self.file = file(alloc, &content)?;
                Ok(made(self.memory.is_some() && self.file.is_some()))
            }
            Make::Cache(cells) => {
                if cells == 0 {
                    return Ok(Answer::Nothing);
                }
                self.cache = Some(CellCache::new(alloc, cells).map_err(lack)?);
                Ok(Answer::Done)
            }
        }
    }
}

/// Whether something was made.
fn made(is_made: bool) -> Answer {
    if is_made {
        return Answer::Done;
    }
    Answer::Nothing
}

/// The same, as others say it.
fn lack(_: NoMemory) -> AllocError {
    AllocError
}

/// A blank device in memory, with room for so many changes.
fn memory(alloc: Global, cells: u32, changes: u32) -> Result<Option<MemoryDevice>, AllocError> {
    if cells == 0 || cells > MAX_CELLS {
        return Ok(None);
    }
    let mut device = MemoryDevice::new(alloc, cells).map_err(lack)?;
    if changes > 0 {
        device.reserve(changes).map_err(lack)?;
    }
    Ok(Some(device))
}

/// A device over a file in memory.
fn file(alloc: Global, content: &Content) -> Result<Option<FileDevice<MemoryFile>>, AllocError> {
    let bytes = bytes_of(alloc, content)?;
    let mut file = MemoryFile::new(bytes, FILE_CHANGES).map_err(lack)?;
    file.fail_at(content.fails, leaving_of(content.leaving));
    match FileDevice::over(file, Pages::new(alloc).map_err(lack)?) {
        Ok(device) => Ok(Some(device)),
        Err(_) => Ok(None),
    }
}

/// The bytes of a file in memory.
fn bytes_of(alloc: Global, content: &Content) -> Result<Vec<u8>, AllocError> {
    let mut bytes = Vec::new(alloc);
    if content.is_numbered {
        for at in 0..content.size {
            bytes.extend_from_slice(&u128::from(at).to_be_bytes())?;
        }
        return Ok(bytes);
    }
    for _ in 0..content.size {
        bytes.push(0)?;
    }
    Ok(bytes)
}

/// What a write of a file leaves that fails.
fn leaving_of(left: Left) -> Leaving {
    match left {
        Left::Nothing => Leaving::Nothing,
        Left::All => Leaving::All,
        Left::Half => {
            let (yes, no) = (true, false);
            Leaving::Part([
                yes, yes, yes, yes, yes, yes, yes, yes, no, no, no, no, no, no, no, no,
            ])
        }
    }
}
