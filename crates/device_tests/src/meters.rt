//! What a meter is shown of a file in memory.
use cell_types::Cell;
use host_files::{FileDevice, HostFile, Leaving, MemoryFile, MeteredFile, Pages};
use host_ports::{Meter, Silent, Work};
use std::alloc::Global;
use std::process::Abort;
use std::test::Fail;
use worm_device::{Device, Failed, Written};

/// The bytes of 1,000 cells, and 7 behind them.
const SIZE: usize = 16_007;

/// A meter that keeps the first eight things that it is shown.
#[derive(Drop)]
struct Recorder {
    shown: [(Work, u64, u64); 8],
    count: usize,
}

impl Recorder {
    /// Nothing was shown yet.
    fn new() -> Recorder {
        Recorder {
            shown: [(Work::Copying, 0, 0); 8],
            count: 0,
        }
    }

    /// What was shown of reading 16,000 bytes since so many things were: `None` where nothing was, and 0 for anything else
    /// than one such line.
    fn shown_since(&self, before: usize) -> Option<u64> {
        if self.count == before {
            return None;
        }
        match self.shown.get(before) {
            Some(&(Work::Reading, done, 16_000)) if self.count == before.saturating_add(1) => {
                Some(done)
            }
            _ => Some(0),
        }
    }
}

impl Meter for Recorder {
    fn show(&mut self, work: Work, done: u64, of: u64) {
        if self.count < 8 {
            self.shown[self.count] = (work, done, of);
            self.count += 1;
        }
    }
}

/// A device over a metered file in memory of so many zeros, whose record has room for so many changes.
fn device_over<M: Meter + Drop>(
    alloc: Global,
    changes: u32,
    meter: M,
) -> Result<FileDevice<MeteredFile<MemoryFile, M>>, Fail> {
    let file = MemoryFile::new(vec![in alloc; 0u8; SIZE]?, changes)?;
    let metered = MeteredFile::new(file, meter);
    FileDevice::over(metered, Pages::new(alloc)?).map_err(|_| Fail::new("1,000 cells are a device"))
}

/// Whether nothing is found in a cell that the device has.
fn is_blank(rt: &impl Abort, device: &mut impl Device, at: u32) -> bool {
    assert!(rt; at < device.cells(), "there is a cell {at}");
    device.read(at) == Ok(None)
}

/// Reads so many bytes of a file that has them.
fn read(rt: &impl Abort, file: &mut impl HostFile, from: u64, size: usize) -> Result<(), Failed> {
    let mut room = [0; 4_096];
    assert!(rt; size <= 4_096, "no test reads more");
    assert!(rt;
        from < 100_000 && from + size as u64 <= file.size(),
        "there are bytes from {from} on"
    );
    file.read_at(&mut room[..size], from)
}

/// Each cell is read once, in rising order: the pages are shown, and no byte behind the last cell is waited for.
#[test]
fn a_device_that_is_read_is_shown_to_its_end(rt: HostRuntime) -> Result<(), Fail> {
    let mut device = device_over(rt.alloc(), 0, Recorder::new())?;
    for at in 0..1_000 {
        assert!(rt; is_blank(&rt, &mut device, at), "cell {at}");
    }
    let meter = &device.file().meter;
    assert_eq!(rt; meter.count, 4);
    assert_eq!(rt;
        meter.shown[..4],
        [
            (Work::Reading, 4_096, 16_000),
            (Work::Reading, 8_192, 16_000),
            (Work::Reading, 12_288, 16_000),
            (Work::Reading, 16_000, 16_000)
        ][..]
    );
    Ok(())
}

/// From where a file is read, how many bytes, whether that answers, and what is shown then, if anything.
type Case = (u64, usize, bool, Option<u64>);

/// Reads a file as each of these says.
fn expect_shown(rt: &impl Abort, metered: &mut MeteredFile<MemoryFile, Recorder>, cases: &[Case]) {
    for (from, size, answers, shown) in cases {
        let before = metered.meter.count;
        let done = read(rt, metered, *from, *size);
        assert!(rt; done.is_ok() == *answers);
        assert!(rt; metered.meter.shown_since(before) == *shown);
    }
}

/// A read that fails is not shown, nor one that comes no further, nor what lies behind the last cell.
#[test]
fn only_reads_that_come_further_are_shown(rt: HostRuntime) -> Result<(), Fail> {
    let alloc = rt.alloc();
    let mut file = MemoryFile::new(vec![in alloc; 0u8; SIZE]?, 0)?;
    file.fail_at(5, Leaving::Nothing);
    let mut metered = MeteredFile::new(file, Recorder::new());
    assert!(rt; metered.size() == 16_007);
    let cases = [
        (0, 4_096, true, Some(4_096)),
        (4_096, 4_096, true, Some(8_192)),
        (0, 16, true, None),
        (8_192, 4_096, true, Some(12_288)),
        (12_288, 3_712, false, None),
        (12_288, 3_712, true, Some(16_000)),
        (12_288, 3_719, true, None),
    ];
    expect_shown(&rt, &mut metered, &cases);
    Ok(())
}

/// A meter that shows nothing is a meter, and what is written over a metered file stands in it.
#[test]
fn what_is_written_over_a_metered_file_stands(rt: HostRuntime) -> Result<(), Fail> {
    let mut device = device_over(rt.alloc(), 2, Silent)?;
    let Some(value) = Cell::from_bytes([7; 16]) else {
        panic!(&rt; "the bytes are not all zero");
    };
    assert_eq!(rt; device.cells(), 1_000);
    assert_eq!(rt; device.write(999, value), Ok(Written::Done));
    assert_eq!(rt; device.sync(), Ok(()));
    assert_eq!(rt; device.read(999), Ok(Some(value)));
    assert_eq!(rt; device.write(999, value), Ok(Written::Taken(value)));
    Ok(())
}
