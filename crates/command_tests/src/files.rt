//! Commands over a file in memory, each call of which fails in turn. What is expected was written by hand.
use cell_types::{Cell, Evidence, Refusal};
use host_files::{FileDevice, Leaving, MemoryFile, Pages};
use host_ports::{MemorySink, MemorySource, Silent};
use record_top::{Outcome, run_over_file};
use std::alloc::Global;
use std::test::Fail;

/// How many cells the file has, and 7 bytes behind them.
const CELLS: usize = 600;

/// The volume cell of 8 slots and 2 lists on 600 cells. A cell is given by its 32 hexadecimal digits.
const VOLUME: u128 = 0x01_01_00000008_0002_00000258_00000000;

/// The cells of the document `a` with the body `hello world` in slot 0, in the order in which they are written: the
/// reserve cell, the document with its journal, the commit cell, the journal's targets, the done cell.
const DOCUMENT: [(usize, u128); 10] = [
    (4, 0x02_00000244_00000004_000000_00000004),
    (580, 0x1d_01_61_68656c6c6f20776f726c64_0000),
    (581, 0x06_00000000_01_2cf24dba5fb0_00000024),
    (582, 0x06_00000001_01_486ea46224d1_00000025),
    (583, 0x08_00000000_ca978112ca1bbd_00000230),
    (5, 0x03_0000000d_00000003_000000_00000005),
    (36, 0x06_00000000_01_2cf24dba5fb0_00000024),
    (37, 0x06_00000001_01_486ea46224d1_00000025),
    (560, 0x08_00000000_ca978112ca1bbd_00000230),
    (6, 0x05_00000000_00000000000000_00000006),
];

/// Of each of these cells the call whose fault breaks it, and the first whose fault comes too late for it. Settling's
/// sync and a page are read for cell 0, and a page for cell 560. Then each row of cells is asked for and written, and
/// each of the five phases ends with a sync; behind the commit the journal's page is read again. The journal is one
/// row, from cell 581 to 583: where its write fails, the first is whole, the second breaks, and the third was not
/// reached.
const WRITES: [(Option<u32>, u32); 10] = [
    (Some(5), 6),
    (Some(8), 9),
    (None, 10),
    (Some(10), 11),
    (None, 11),
    (Some(13), 14),
    (Some(17), 18),
    (Some(19), 20),
    (Some(21), 22),
    (Some(24), 25),
];

/// The last of the calls, a sync.
const CALLS: u32 = 25;

/// The cells of the document `b` with the same body: in slot 0, in slot 1 where slot 0 was given up, and in slot 1
/// behind the document `a`.
const NEXT_DOCUMENT: [[(usize, u128); 10]; 3] = [
    [
        (4, 0x02_00000244_00000004_000000_00000004),
        (580, 0x1d_01_62_68656c6c6f20776f726c64_0000),
        (581, 0x06_00000000_01_2cf24dba5fb0_00000024),
        (582, 0x06_00000001_01_486ea46224d1_00000025),
        (583, 0x08_00000000_3e23e816003959_00000227),
        (5, 0x03_0000000d_00000003_000000_00000005),
        (36, 0x06_00000000_01_2cf24dba5fb0_00000024),
        (37, 0x06_00000001_01_486ea46224d1_00000025),
        (551, 0x08_00000000_3e23e816003959_00000227),
        (6, 0x05_00000000_00000000000000_00000006),
    ],
    [
        (8, 0x02_00000248_00000004_000000_00000008),
        (584, 0x1d_01_62_68656c6c6f20776f726c64_0000),
        (585, 0x06_00000100_01_2cf24dba5fb0_00000024),
        (586, 0x06_00000101_01_486ea46224d1_00000025),
        (587, 0x08_00000001_3e23e816003959_00000227),
        (9, 0x03_0000000d_00000003_000000_00000009),
        (36, 0x06_00000100_01_2cf24dba5fb0_00000024),
        (37, 0x06_00000101_01_486ea46224d1_00000025),
        (551, 0x08_00000001_3e23e816003959_00000227),
        (10, 0x05_00000001_00000000000000_0000000a),
    ],
    [
        (8, 0x02_00000248_00000004_000000_00000008),
        (584, 0x1d_01_62_68656c6c6f20776f726c64_0000),
        (585, 0x06_00000100_01_2cf24dba5fb0_00000026),
        (586, 0x06_00000101_01_486ea46224d1_00000027),
        (587, 0x08_00000001_3e23e816003959_00000227),
        (9, 0x03_0000000d_00000003_000000_00000009),
        (38, 0x06_00000100_01_2cf24dba5fb0_00000026),
        (39, 0x06_00000101_01_486ea46224d1_00000027),
        (551, 0x08_00000001_3e23e816003959_00000227),
        (10, 0x05_00000001_00000000000000_0000000a),
    ],
];

/// Slot 0 was given up.
const ABANDON: (usize, u128) = (5, 0x04_0000000000000000000000_00000005);

/// The first eight bytes of sixteen.
const FIRST_EIGHT: [bool; 16] = [
    true, true, true, true, true, true, true, true, false, false, false, false, false, false,
    false, false,
];

/// What is written in a cell, where these cells are and no other.
fn written_at(cells: &[(usize, u128)], at: usize) -> u128 {
    for (other, cell) in cells {
        if *other == at {
            return *cell;
        }
    }
    0
}

/// The bytes of a file in which these cells are written, and no other.
fn with_cells(alloc: Global, cells: &[(usize, u128)]) -> Result<Vec<u8>, Fail> {
    let mut bytes = Vec::new(alloc);
    for at in 0..CELLS {
        bytes.extend_from_slice(&written_at(cells, at).to_be_bytes())?;
    }
    bytes.extend_from_slice(&[0; 7])?;
    Ok(bytes)
}

/// A device over a file of these bytes, whose call of this number fails, from 1, and leaves this of a write.
fn failing(
    alloc: Global,
    bytes: Vec<u8>,
    fails: u32,
    leaving: Leaving,
) -> Result<FileDevice<MemoryFile>, Fail> {
    let mut file = MemoryFile::new(bytes, 64)?;
    file.fail_at(fails, leaving);
    FileDevice::over(file, Pages::new(alloc)?).map_err(|_| Fail::new("600 cells are a device"))
}

/// Carries out words, between bars, over this body. Answers the outcome, and whether this text was put out.
fn carry_out(
    alloc: Global,
    words: &str,
    body: &[u8],
    device: &mut FileDevice<MemoryFile>,
    text: &[u8],
) -> Result<(Outcome, bool), Fail> {
    let mut all = Vec::new(alloc);
    for word in words.split('|') {
        all.push(String::from_str(alloc, word)?)?;
    }
    let mut bytes = Vec::new(alloc);
    bytes.extend_from_slice(body)?;
    let mut source = MemorySource::new(bytes);
    let mut sink = MemorySink::new(alloc);
    sink.reserve(64)?;
    let outcome = run_over_file(alloc, &all, device, &mut source, &mut sink, &mut Silent);
    Ok((outcome, sink.bytes() == text))
}

/// What a write of a cell has left, where it failed and of a part got the first eight bytes.
fn left_of(cell: u128, leaving: Leaving) -> u128 {
    match leaving {
        Leaving::Nothing => 0,
        Leaving::All => cell,
        Leaving::Part(_) => cell & 0xffffffffffffffff_0000000000000000,
    }
}

/// Three pages are read, cell 0 is asked for and written, and synced: six calls.
#[test]
fn each_call_of_the_file_fails_in_turn_under_format(rt: HostRuntime) -> Result<(), Fail> {
    let alloc = rt.alloc();
    let text = b"formatted\n";
    let blank = with_cells(alloc, &[])?;
    let mut whole = failing(alloc, blank, 7, Leaving::Nothing)?;
    let done = carry_out(alloc, "format|8|2", b"", &mut whole, text)?;
    assert_eq!(rt; done, (Ok(()), true));
    for leaving in [Leaving::Nothing, Leaving::All, Leaving::Part(FIRST_EIGHT)] {
        for fails in 1..7u32 {
            let blank = with_cells(alloc, &[])?;
            let mut device = failing(alloc, blank, fails, leaving)?;
            let first = carry_out(alloc, "format|8|2", b"", &mut device, b"")?;
            assert_eq!(rt;
                first,
                (Err(Refusal::DeviceFault), true),
                "call {fails} {leaving:?}"
            );
            let left = match fails {
                5 => left_of(VOLUME, leaving),
                6 => VOLUME,
                _ => 0,
            };
            let bytes = with_cells(alloc, &[(0, left)])?;
            assert_eq!(rt;
                device.file().bytes(),
                bytes.as_slice(),
                "call {fails} {leaving:?}"
            );

            if left == 0 {
                let again = carry_out(alloc, "format|8|2", b"", &mut device, text)?;
                assert_eq!(rt; again, (Ok(()), true), "call {fails} {leaving:?}");
                assert_eq!(rt;
                    device.file().bytes(),
                    whole.file().bytes(),
                    "call {fails} {leaving:?}"
                );
            } else {
                let again = carry_out(alloc, "format|8|2", b"", &mut device, b"")?;
                assert_eq!(rt;
                    again,
                    (Err(Refusal::NotBlank(0)), true),
                    "call {fails} {leaving:?}"
                );
                assert_eq!(rt;
                    device.file().bytes(),
                    bytes.as_slice(),
                    "call {fails} {leaving:?}"
                );
            }
        }
    }
    Ok(())
}

/// The cells that are left of the volume where this call fails, and what the next command names, where it is a torn
/// one.
fn left_by_ingest(
    alloc: Global,
    fails: u32,
    leaving: Leaving,
) -> Result<(Vec<(usize, u128)>, Option<Evidence>), Fail> {
    let mut cells = vec![in alloc; (0usize, VOLUME); 1]?;
    let mut torn = None;
    for ((at, cell), (breaks, whole)) in DOCUMENT.iter().zip(&WRITES) {
        if *whole <= fails {
            cells.push((*at, *cell))?;
        } else if *breaks == Some(fails) && leaving != Leaving::Nothing {
            let left = left_of(*cell, leaving);
            cells.push((*at, left))?;
            if left != *cell {
                torn = evidence_of(*at, *cell, left);
            }
        }
    }
    Ok((cells, torn))
}

/// A torn cell, as it is named: slot 0's reserve cell breaks rule 1, the outcome cell 2 and the done cell 3. Of an
/// index cell the journal cell is named that asks for it, by rule 6. What stands in the cells that the slot reserves
/// is not looked at.
fn evidence_of(at: usize, whole: u128, left: u128) -> Option<Evidence> {
    let (rule, cell, digits) = match at {
        4 => (1, 4, left),
        5 => (2, 5, left),
        6 => (3, 6, left),
        36 => (6, 581, whole),
        37 => (6, 582, whole),
        560 => (6, 583, whole),
        _ => return None,
    };
    let found = Cell::from_bytes(digits.to_be_bytes())?;
    Some(Evidence { rule, cell, found })
}

/// What the next ingest leaves of these cells, where none is torn that it looks at: it gives slot 0 up where that is
/// reserved alone, completes it where it is committed, and stores its document in slot 1; or in slot 0, where that is
/// unused.
fn left_by_the_next(alloc: Global, cells: &[(usize, u128)]) -> Result<(Vec<u8>, u32), Fail> {
    let mut all = Vec::new(alloc);
    all.extend_from_slice(cells)?;
    let [first, behind_abandoned, behind_done] = NEXT_DOCUMENT;
    if written_at(cells, 4) == 0 {
        all.extend_from_slice(&first)?;
        return Ok((with_cells(alloc, &all)?, 0));
    }
    if written_at(cells, 5) == 0 {
        all.push(ABANDON)?;
        all.extend_from_slice(&behind_abandoned)?;
    } else {
        all.extend_from_slice(&DOCUMENT)?;
        all.extend_from_slice(&behind_done)?;
    }
    Ok((with_cells(alloc, &all)?, 1))
}

/// One call fails, and then another document is ingested. Answers whether both end as they have to, and leave what they
/// have to.
fn fails_and_goes_on(alloc: Global, fails: u32, leaving: Leaving) -> Result<bool, Fail> {
    let body = b"hello world";
    let volume = with_cells(alloc, &[(0, VOLUME)])?;
    let mut device = failing(alloc, volume, fails, leaving)?;
    let first = carry_out(alloc, "ingest|a", body, &mut device, b"")?;
    let (cells, torn) = left_by_ingest(alloc, fails, leaving)?;
    let left = with_cells(alloc, &cells)?;
    if first != (Err(Refusal::DeviceFault), true) || device.file().bytes() != left.as_slice() {
        return Ok(false);
    }
    if let Some(evidence) = torn {
        let again = carry_out(alloc, "ingest|b", body, &mut device, b"")?;
        let want = (Err(Refusal::Tampered(evidence)), true);
        return Ok(again == want && device.file().bytes() == left.as_slice());
    }
    let (bytes, slot) = left_by_the_next(alloc, &cells)?;
    let text = format!(in alloc; "acknowledged {slot}\n")?;
    let again = carry_out(alloc, "ingest|b", body, &mut device, text.as_bytes())?;
    Ok(again == (Ok(()), true) && device.file().bytes() == bytes.as_slice())
}

#[test]
fn each_call_of_the_file_fails_in_turn_under_ingest(rt: HostRuntime) -> Result<(), Fail> {
    let alloc = rt.alloc();
    let (body, text) = (b"hello world", b"acknowledged 0\n");
    let mut cells = vec![in alloc; (0usize, VOLUME); 1]?;
    cells.extend_from_slice(&DOCUMENT)?;
    let whole = with_cells(alloc, &cells)?;
    let volume = with_cells(alloc, &[(0, VOLUME)])?;
    let mut device = failing(alloc, volume, CALLS + 1, Leaving::Nothing)?;
    let done = carry_out(alloc, "ingest|a", body, &mut device, text)?;
    assert_eq!(rt; done, (Ok(()), true));
    assert_eq!(rt; device.file().bytes(), whole.as_slice());
    for leaving in [Leaving::Nothing, Leaving::All, Leaving::Part(FIRST_EIGHT)] {
        for fails in 1..CALLS + 1 {
            let holds = fails_and_goes_on(alloc, fails, leaving)?;
            assert!(rt; holds, "call {fails} {leaving:?}");
        }
    }
    Ok(())
}
