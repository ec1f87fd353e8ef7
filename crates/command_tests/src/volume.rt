//! A volume in memory, and the commands that are run over it.
ghost use Rattle.std.specs.Prelude.{◌≤◌};
ghost use Rattle.cell_types.specs.declared.geometry.TheConstants.{MAX_CELLS};

use host_ports::{MemorySink, MemorySource};
use record_top::{Outcome, run};
use std::alloc::Global;
use std::test::Fail;
use worm_device::Device;
use worm_memory::{Change, MemoryDevice};

/// Room for how many changes the record of a device gets before each command.
const CHANGES: u32 = 200;

/// How many bytes may be put out.
const SINK_BYTES: u32 = 4_096;

/// The words of a command, between bars.
fn words_of(alloc: Global, text: &str) -> Result<Vec<String>, Fail> {
    let mut all = Vec::new(alloc);
    for word in text.split('|') {
        all.push(String::from_str(alloc, word)?)?;
    }
    Ok(all)
}

/// A source of these bytes.
fn source_of(alloc: Global, body: &[u8]) -> Result<MemorySource, Fail> {
    let mut bytes = Vec::new(alloc);
    bytes.extend_from_slice(body)?;
    Ok(MemorySource::new(bytes))
}

/// A sink with room for some lines.
fn sink(alloc: Global) -> Result<MemorySink, Fail> {
    let mut sink = MemorySink::new(alloc);
    sink.reserve(SINK_BYTES)?;
    Ok(sink)
}

/// Carries out the words over this body, and answers the outcome and what was put out.
pub fn outcome_of<D: Device>(
    alloc: Global,
    words: &str,
    device: &mut D,
    body: &[u8],
) -> Result<(Outcome, Vec<u8>), Fail> {
    let words = words_of(alloc, words)?;
    let mut source = source_of(alloc, body)?;
    let mut sink = sink(alloc)?;
    let outcome = run(alloc, &words, device, &mut source, &mut sink);
    let mut put = Vec::new(alloc);
    put.extend_from_slice(sink.bytes())?;
    Ok((outcome, put))
}

/// Begins a command: nothing is planned for it, and its changes have room.
pub fn begin(device: &mut MemoryDevice) -> Result<(), Fail> {
    device.reserve(CHANGES)?;
    device.begin();
    Ok(())
}

/// A blank device that was made a volume by these words.
pub fn formatted(alloc: Global, cells: u32, words: &str) -> Result<MemoryDevice, Fail>
    requires some { 1 ≤ cells }
    requires most { cells ≤ MAX_CELLS }
{
    let mut device = MemoryDevice::new(alloc, cells)?;
    begin(&mut device)?;
    let (outcome, _) = outcome_of(alloc, words, &mut device, b"")?;
    if outcome.is_err() {
        return Err(Fail::from("the volume was not formatted"));
    }
    Ok(device)
}

/// The cells that are written and not sure, in order: those of the changes since the last sync or crash.
pub fn unsure(alloc: Global, device: &MemoryDevice) -> Result<Vec<u32>, Fail> {
    let mut cells = Vec::new(alloc);
    for change in device.changes() {
        match *change {
            Change::Wrote { at, .. } | Change::Foreign { at, .. } => cells.push(at)?,
            _ => cells.clear(),
        }
    }
    Ok(cells)
}
