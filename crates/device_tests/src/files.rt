//! Devices over a file of the host, and over one that writes down its calls.

use cell_types::Cell;
use host_files::{FileDevice, HostCalls, OpenFault, OsFile, Pages};
use std::io::ErrorKind;
use std::process::Abort;
use std::test::Fail;
use std::{cell, fs, io};
use worm_device::{Device, Failed, RowWritten, Written};

/// The cell of fifteen zeros and a last byte, which is not 0.
fn some_cell(rt: &impl Abort, last: u8) -> Cell {
    Cell::from_bytes(u128::from(last).to_be_bytes()).expect(rt, "the last byte is not 0")
}

/// Reads a cell, and fails where the device does not have it.
fn read<D: Device>(device: &mut D, at: u32) -> Result<Option<Cell>, Failed> {
    if at >= device.cells() {
        return Err(Failed);
    }
    device.read(at)
}

/// Writes a cell, and fails where the device does not have it.
fn write<D: Device>(device: &mut D, at: u32, value: Cell) -> Result<Written, Failed> {
    if at >= device.cells() {
        return Err(Failed);
    }
    device.write(at, value)
}

/// Reads neighbouring cells, and fails where the device does not have them.
fn read_row<D: Device>(device: &mut D, at: u32, cells: &mut [Option<Cell>]) -> Result<(), Failed> {
    if at > device.cells() || cells.len() > (device.cells() - at) as usize {
        return Err(Failed);
    }
    device.read_row(at, cells)
}

/// Reads the bytes of twenty neighbouring cells, and fails where the device does not have them.
fn read_bytes<D: Device>(device: &mut D, at: u32, bytes: &mut [u8; 320]) -> Result<(), Failed> {
    if at > device.cells() || device.cells() - at < 20 {
        return Err(Failed);
    }
    device.read_bytes(at, bytes)
}

/// Writes neighbouring cells, and fails where the device does not have them.
fn write_row<D: Device>(device: &mut D, at: u32, values: &[Cell]) -> Result<RowWritten, Failed> {
    if at > device.cells() || values.len() > (device.cells() - at) as usize {
        return Err(Failed);
    }
    device.write_row(at, values)
}

/// Writes cells 999 and 3 of a blank device of 1,000 cells, the first of them twice, and makes them sure.
fn write_two<D: Device>(rt: &impl Abort, device: &mut D, seven: Cell, nine: Cell) {
    assert!(rt; device.cells() == 1_000);
    assert!(rt; read(device, 999) == Ok(None));
    assert!(rt; write(device, 999, nine) == Ok(Written::Done));
    assert!(rt; write(device, 999, seven) == Ok(Written::Taken(nine)));
    assert!(rt; write(device, 3, seven) == Ok(Written::Done));
    assert!(rt; device.sync() == Ok(()));
    assert!(rt; read(device, 999) == Ok(Some(nine)));
}

#[test]
fn what_was_written_stands_in_the_file(rt: HostRuntime) -> Result<(), Fail> {
    let alloc = rt.alloc();
    let path = "what_was_written_stands_in_the_file.img";
    fs::write(&rt, path, vec![in alloc; 0u8; 16_007]?)?;
    let Ok(mut device) = FileDevice::open(&rt, path, Pages::new(alloc)?) else {
        panic!(rt; "{path} is there");
    };
    write_two(&rt, &mut device, some_cell(&rt, 7), some_cell(&rt, 9));
    let mut wanted = vec![in alloc; 0u8; 16_007]?;
    wanted[63] = 7;
    wanted[15_999] = 9;
    assert!(rt; fs::read(&rt, path)? == wanted);

    fs::write(&rt, path, vec![in alloc; 0u8; 15]?)?;
    let short = FileDevice::open(&rt, path, Pages::new(alloc)?);
    assert!(rt; short.map(|device| device.cells()) == Err(OpenFault::Size(0)));
    fs::remove_file(&rt, path)?;
    let missing = FileDevice::open(&rt, path, Pages::new(alloc)?);
    assert!(rt; missing.map(|device| device.cells()) == Err(OpenFault::Host));
    Ok(())
}

/// A file of blank cells of which nothing is kept. It writes down its calls, and its syncs fail.
#[derive(Drop)]
struct LoggingFile<'a> {
    calls: &'a cell::Cell<[u8; 16]>,
    count: cell::Cell<u8>,
    size: u64,
}

impl<'a> LoggingFile<'a> {
    /// Writes down a call.
    fn log(&self, letter: u8) {
        let mut calls = self.calls.get();
        let at = self.count.get();
        calls[usize::from(at % 16)] = letter;
        self.calls.set(calls);
        self.count.set(at.wrapping_add(1));
    }
}

impl<'a> HostCalls for LoggingFile<'a> {
    ghost use Rattle.std.specs.Prelude.{⊤};

    ghost made = { λ _ _ _. ⊤ };

    fn hold(&mut self) -> io::Result<()> {
        self.log(b'h');
        Ok(())
    }

    fn try_hold(&mut self) -> io::Result<bool> {
        self.log(b't');
        Ok(true)
    }

    fn count_bytes(&mut self) -> io::Result<u64> {
        self.log(b'e');
        Ok(self.size)
    }

    fn read_exact_at(&mut self, into: &mut [u8], _from: u64) -> io::Result<()> {
        self.log(b'r');
        into.fill(0);
        Ok(())
    }

    fn write_all_at(&mut self, _bytes: &[u8], _from: u64) -> io::Result<()> {
        self.log(b'w');
        Ok(())
    }

    fn sync_data(&mut self) -> io::Result<()> {
        self.log(b's');
        Err(io::Error::from(ErrorKind::Other))
    }
}

/// A read, a write and a sync that fails, and then another write and sync.
fn sync_in_vain<D: Device>(rt: &impl Abort, device: &mut D, value: Cell) {
    let _ = read(device, 0);
    let _ = write(device, 1, value);
    assert!(rt; device.sync() == Err(Failed));
    assert!(rt; write(device, 0, value) == Err(Failed));
    assert!(rt; device.sync() == Err(Failed));
}

/// What these calls become of a file of two cells that says so many bytes of itself.
fn calls_of(rt: &(impl AllocGlobal + Abort), size: u64) -> Result<[u8; 16], Fail> {
    let calls = cell::Cell::new([b'.'; 16]);
    let file = LoggingFile {
        calls: &calls,
        count: cell::Cell::new(0),
        size,
    };
    let Ok(mut device) = FileDevice::over(OsFile::over(file, 32), Pages::new(rt.alloc())?) else {
        panic!(rt; "32 bytes are two cells");
    };
    sync_in_vain(rt, &mut device, some_cell(rt, 7));
    Ok(calls.get())
}

#[test]
fn the_file_is_held_from_the_first_call_until_a_sync_fails(rt: HostRuntime) -> Result<(), Fail> {
    assert!(rt; calls_of(&rt, 32)? == *b"herrws..........");
    Ok(())
}

/// Each call takes the lock again, and finds the file cut short.
#[test]
fn a_file_that_was_cut_short_before_it_was_held_is_not_read(rt: HostRuntime) -> Result<(), Fail> {
    assert!(rt; calls_of(&rt, 16)? == *b"hehehehehe......");
    Ok(())
}

/// The page of cell 5 holds cells 0 to 255. So the first bytes take no call, and the others one each.
#[test]
fn bytes_come_of_a_held_page_or_of_the_file(rt: HostRuntime) -> Result<(), Fail> {
    let calls = cell::Cell::new([b'.'; 16]);
    let file = LoggingFile {
        calls: &calls,
        count: cell::Cell::new(0),
        size: 16_000,
    };
    let pages = Pages::new(rt.alloc())?;
    let Ok(mut device) = FileDevice::over(OsFile::over(file, 16_000), pages) else {
        panic!(rt; "16,000 bytes are 1,000 cells");
    };
    assert!(rt; read(&mut device, 5) == Ok(None));
    assert!(rt; calls.get() == *b"her.............");
    let mut bytes = [0; 320];
    assert!(rt; read_bytes(&mut device, 236, &mut bytes) == Ok(()));
    assert!(rt; calls.get() == *b"her.............");
    assert!(rt; read_bytes(&mut device, 237, &mut bytes) == Ok(()));
    assert!(rt; calls.get() == *b"herr............");
    assert!(rt; read_bytes(&mut device, 980, &mut bytes) == Ok(()));
    assert!(rt; calls.get() == *b"herrr...........");
    Ok(())
}

/// Cells 100 to 699 lie on three pages: a read and a write of each, and a read of each page, once.
#[test]
fn a_row_takes_a_read_and_a_write_a_page(rt: HostRuntime) -> Result<(), Fail> {
    let calls = cell::Cell::new([b'.'; 16]);
    let file = LoggingFile {
        calls: &calls,
        count: cell::Cell::new(0),
        size: 16_000,
    };
    let pages = Pages::new(rt.alloc())?;
    let Ok(mut device) = FileDevice::over(OsFile::over(file, 16_000), pages) else {
        panic!(rt; "16,000 bytes are 1,000 cells");
    };
    let values = vec![in rt.alloc(); some_cell(&rt, 7); 600]?;
    assert!(rt; write_row(&mut device, 100, &values) == Ok(RowWritten::Whole));
    assert!(rt; calls.get() == *b"herwrwrw........");
    let mut found = vec![in rt.alloc(); None; 600]?;
    assert!(rt; read_row(&mut device, 100, &mut found) == Ok(()));
    assert!(rt; read_row(&mut device, 100, &mut found) == Ok(()));
    assert!(rt; calls.get() == *b"herwrwrwrrr.....");
    Ok(())
}
