//! Parts of a document, stored and read again, and parts with a wrong cell. What is expected was written by hand.
ghost use Rattle.std.specs.Prelude.{◌≡◌, ◌≤◌, ◌+◌};
ghost use Rattle.cell_types.specs.declared.geometry.TheConstants.{MAX_CELLS};
ghost use Rattle.volume_meaning.specs.Slots as slots;

use append_file::{ContentFault, Position, ROW_BYTES, Reader, cells_for, content_cells, next_row};
use cell_types::{Cell, content};
use std::alloc::{AllocError, Global};
use std::test::Fail;
use worm_device::{Device, Direct, View};
use worm_memory::{MemoryDevice, Moment};

/// 31 bytes: they take three cells, of which the last one holds one byte.
const STORED: &[u8] = b"the first cell,and the second:.";

/// The last answer of a reader that was asked for 31 bytes, and then once more.
type Last = Option<Result<u8, ContentFault>>;

/// A device of 24 cells that holds these from cell 2 on, with room for more.
fn device_with(alloc: Global, cells: &[Cell]) -> Result<MemoryDevice, Fail> {
    device_without(alloc, cells, 0)
}

/// The same, but that this cell of it is blank.
fn device_without(alloc: Global, cells: &[Cell], blank: u32) -> Result<MemoryDevice, Fail> {
    let mut device = MemoryDevice::new(alloc, 24)?;
    device.reserve(48)?;
    let mut at = 2;
    for &value in cells {
        if at < device.cells() {
            if at != blank {
                let _ = device.foreign(at, value)?;
            }
            at += 1;
        }
    }
    Ok(device)
}

/// The cells of the 31 bytes, with this one at a place.
fn cells_with(alloc: Global, place: usize, value: Cell) -> Result<Vec<Cell>, Fail> {
    let mut cells = content_cells(alloc, STORED)?;
    if place < cells.len() {
        cells[place] = value;
    }
    Ok(cells)
}

/// Asks for so many bytes, up to the first answer that is none, and once more. Answers the bytes, and the last two
/// answers.
fn read_part<V: View>(
    alloc: Global,
    view: &mut V,
    start: u32,
    bytes: u32,
) -> Result<(Vec<u8>, Last, Last), AllocError>
    requires { start + slots.cells_for bytes ≤ (V.seen view.old).cells }
{
    let mut given = Vec::new(alloc);
    let mut reader = Reader::new(view, start, bytes);
    for _ in 0..bytes {
        match reader.next_byte() {
            Some(Ok(byte)) => given.push(byte)?,
            last => return Ok((given, last, reader.next_byte())),
        }
    }
    let last = reader.next_byte();
    Ok((given, last, reader.next_byte()))
}

/// Reads the 31 bytes from cell 2 on.
fn read_stored(alloc: Global, device: &mut MemoryDevice) -> Result<(Vec<u8>, Last, Last), Fail> {
    let mut view = Direct::new(device);
    if view.cells() < 5 {
        return Err("a device of eight cells".into());
    }
    Ok(read_part(alloc, &mut view, 2, 31)?)
}

/// So many bytes that differ from their neighbours.
fn bytes_of(alloc: Global, count: u8) -> Result<Vec<u8>, AllocError> {
    let mut bytes = Vec::new(alloc);
    for byte in 0..count {
        bytes.push(byte)?;
    }
    Ok(bytes)
}

/// What the rows of a part gave, how many bytes each, and the fault after which there is none.
type Rows = (Vec<u8>, Vec<usize>, Option<ContentFault>);

/// Asks for row after row of a part, up to its end or to a fault.
fn read_rows<V: View>(
    alloc: Global,
    view: &mut V,
    start: u32,
    bytes: u32,
) -> Result<Rows, AllocError>
    requires { start + slots.cells_for bytes ≤ (V.seen view.old).cells }
{
    let mut given = Vec::new(alloc);
    let mut rows = Vec::new(alloc);
    let mut position = Position::new(start, bytes);
    let mut buffer = [0; ROW_BYTES];
    for _ in 0..cells_for(bytes) {
        if given.len() == bytes as usize {
            return Ok((given, rows, None));
        }
        match next_row(view, &mut position, &mut buffer) {
            Ok(count) => {
                given.extend_from_slice(&buffer[..count])?;
                rows.push(count)?;
            }
            Err(fault) => return Ok((given, rows, Some(fault))),
        }
    }
    Ok((given, rows, None))
}

/// Reads rows of so many bytes from cell 2 on.
fn rows_from_2(alloc: Global, device: &mut MemoryDevice, bytes: u8) -> Result<Rows, Fail> {
    let mut view = Direct::new(device);
    if view.cells() < 20 {
        return Err("a device of 24 cells".into());
    }
    Ok(read_rows(alloc, &mut view, 2, u32::from(bytes))?)
}

#[test]
fn a_document_of_thirteen_bytes_is_one_cell(rt: HostRuntime) -> Result<(), Fail> {
    let cells = content_cells(rt.alloc(), b"\x01ahello world")?;
    let want = [
        0x1d, 0x01, b'a', b'h', b'e', b'l', b'l', b'o', b' ', b'w', b'o', b'r', b'l', b'd', 0, 0,
    ];
    assert_eq!(rt; cells.len(), 1);
    assert_eq!(rt; cells[0].bytes(), want);
    assert_eq!(rt; content_cells(rt.alloc(), b"")?.len(), 0);
    Ok(())
}

#[test]
fn a_part_of_three_cells_is_read_to_its_end(rt: HostRuntime) -> Result<(), Fail> {
    let cells = content_cells(rt.alloc(), STORED)?;
    assert_eq!(rt; cells.len(), 3);
    let mut device = device_with(rt.alloc(), &cells)?;
    let (given, last, after) = read_stored(rt.alloc(), &mut device)?;
    assert_eq!(rt; given.as_slice(), STORED);
    assert_eq!(rt; (last, after), (None, None));
    Ok(())
}

#[test]
fn a_reader_ends_at_a_broken_cell(rt: HostRuntime) -> Result<(), Fail> {
    let record = Cell::from_bytes([2, 0, 0, 2, 0x44, 0, 0, 0, 4, 0, 0, 0, 0, 0, 0, 4]).ok_or(
        "a blank cell",
    )?;
    for (place, value, want) in [
        (0, content(b"the first cell"), &b""[..]),
        (1, content(b"and the second"), b"the first cell,"),
        (1, record, b"the first cell,"),
        (2, content(b".."), b"the first cell,and the second:"),
    ] {
        let cells = cells_with(rt.alloc(), place, value)?;
        let mut device = device_with(rt.alloc(), &cells)?;
        let (given, last, after) = read_stored(rt.alloc(), &mut device)?;
        assert_eq!(rt; given.as_slice(), want);
        assert_eq!(rt; (last, after), (Some(Err(ContentFault::Broken)), None));
    }
    Ok(())
}

#[test]
fn a_reader_ends_at_a_blank_cell(rt: HostRuntime) -> Result<(), Fail> {
    let cells = content_cells(rt.alloc(), b"the first cell,and the second:")?;
    let mut device = device_with(rt.alloc(), &cells)?;
    let (given, last, after) = read_stored(rt.alloc(), &mut device)?;
    assert_eq!(rt; given.as_slice(), &b"the first cell,and the second:"[..]);
    assert_eq!(rt; (last, after), (Some(Err(ContentFault::Broken)), None));
    Ok(())
}

#[test]
fn a_reader_ends_at_a_failed_read(rt: HostRuntime) -> Result<(), Fail> {
    let cells = content_cells(rt.alloc(), STORED)?;
    let mut device = device_with(rt.alloc(), &cells)?;
    device.fail_at(Moment::Call(2))?;
    let (given, last, after) = read_stored(rt.alloc(), &mut device)?;
    assert_eq!(rt; given.as_slice(), &b"the first cell,"[..]);
    assert_eq!(rt; (last, after), (Some(Err(ContentFault::ReadFault)), None));
    Ok(())
}

/// A row has 1,024 cells at most, and so each of these parts is one.
#[test]
fn parts_are_read_by_rows(rt: HostRuntime) -> Result<(), Fail> {
    for (bytes, want) in [
        (1, [1].as_slice()),
        (225, &[225]),
        (226, &[226]),
        (240, &[240]),
        (241, &[241]),
        (255, &[255]),
    ] {
        let stored = bytes_of(rt.alloc(), bytes)?;
        let cells = content_cells(rt.alloc(), &stored)?;
        let mut device = device_with(rt.alloc(), &cells)?;
        let (given, rows, fault) = rows_from_2(rt.alloc(), &mut device, bytes)?;
        assert_eq!(rt; given.as_slice(), stored.as_slice());
        assert_eq!(rt; rows.as_slice(), want);
        assert_eq!(rt; fault, None);
    }
    Ok(())
}

/// Each cell of a part of 16 cells in turn is one byte short.
#[test]
fn a_row_ends_at_a_broken_cell(rt: HostRuntime) -> Result<(), Fail> {
    let stored = bytes_of(rt.alloc(), 240)?;
    for place in 0..16 {
        let mut cells = content_cells(rt.alloc(), &stored)?;
        assert_eq!(rt; cells.len(), 16);
        cells[place] = content(b"fourteen bytes");
        let mut device = device_with(rt.alloc(), &cells)?;
        let (given, _rows, fault) = rows_from_2(rt.alloc(), &mut device, 240)?;
        assert_eq!(rt; (given.len(), fault), (0, Some(ContentFault::Broken)));
    }
    Ok(())
}

/// A row of 16 cells takes the calls 1 to 16. A blank cell that somebody else writes before its read is whole, and one
/// that is written after it is broken.
#[test]
fn a_row_ends_at_a_cell_that_was_blank(rt: HostRuntime) -> Result<(), Fail> {
    let stored = bytes_of(rt.alloc(), 240)?;
    let cells = content_cells(rt.alloc(), &stored)?;
    assert_eq!(rt; cells.len(), 16);
    for place in 0..16 {
        let at = 2 + place as u32;
        for (call, want) in [(at - 1, (240, None)), (at, (0, Some(ContentFault::Broken)))] {
            let mut device = device_without(rt.alloc(), &cells, at)?;
            assert!(rt; at < device.cells());
            device.foreign_before(Moment::Call(call), at, cells[place])?;
            let (given, _rows, fault) = rows_from_2(rt.alloc(), &mut device, 240)?;
            assert_eq!(rt; (given.len(), fault), want);
        }
    }
    Ok(())
}

/// The last read of a row fails; behind it none is made.
#[test]
fn a_row_makes_one_read_a_cell(rt: HostRuntime) -> Result<(), Fail> {
    let stored = bytes_of(rt.alloc(), 240)?;
    let cells = content_cells(rt.alloc(), &stored)?;
    for (call, want) in [(16, (0, Some(ContentFault::ReadFault))), (17, (240, None))] {
        let mut device = device_with(rt.alloc(), &cells)?;
        device.fail_at(Moment::Call(call))?;
        let (given, _rows, fault) = rows_from_2(rt.alloc(), &mut device, 240)?;
        assert_eq!(rt; (given.len(), fault), want);
    }
    Ok(())
}
