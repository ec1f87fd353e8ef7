//! Texts that are almost the receipt of the small volume: none is accepted.
use crate::volumes::{Answer, answer_to, small_volume};
use std::alloc::{AllocError, Global};
use std::test::Fail;
use worm_memory::MemoryDevice;

/// The receipt of `a`: the volume cell, the slot's reserve, commit and done cell, its two postings, its bucket and its
/// stored bytes.
const OF_A: &str = "receipt 0 a
0 0101000000080002000003e800000000
4 02000002440000000400000000000004
5 030000000d0000000300000000000005
6 05000000000000000000000000000006
36 0600000000012cf24dba5fb000000024
37 060000000101486ea46224d100000025
560 0800000000ca978112ca1bbd00000230
580 1d016168656c6c6f20776f726c640000
end 8
";

/// How many lines the receipt has.
const LINES: usize = 10;

/// The lines of the receipt, without their newlines.
fn lines() -> [&'static [u8]; LINES] {
    [
        b"receipt 0 a",
        b"0 0101000000080002000003e800000000",
        b"4 02000002440000000400000000000004",
        b"5 030000000d0000000300000000000005",
        b"6 05000000000000000000000000000006",
        b"36 0600000000012cf24dba5fb000000024",
        b"37 060000000101486ea46224d100000025",
        b"560 0800000000ca978112ca1bbd00000230",
        b"580 1d016168656c6c6f20776f726c640000",
        b"end 8",
    ]
}

/// What becomes of the lines.
#[derive(Clone, Copy, Debug)]
enum Change {
    LeaveOut(usize),
    /// The same, with the number of those that are left in the last line.
    LeaveOutOne(usize),
    Double(usize),
    SwapWithNext(usize),
}

/// The text of the changed lines.
fn changed(alloc: Global, change: Change) -> Result<Vec<u8>, AllocError> {
    let lines = lines();
    let mut text = Vec::new(alloc);
    for at in 0..LINES {
        let mut line = lines[at];
        let mut times = 1;
        match change {
            Change::LeaveOut(gone) => {
                if gone == at {
                    times = 0;
                }
            }
            Change::LeaveOutOne(gone) => {
                if gone == at {
                    times = 0;
                }
                if at == LINES - 1 {
                    line = b"end 7";
                }
            }
            Change::Double(twice) => {
                if twice == at {
                    times = 2;
                }
            }
            Change::SwapWithNext(first) => {
                if at == first && at < LINES - 1 {
                    line = lines[at + 1];
                }
                if at > 0 && at - 1 == first {
                    line = lines[at - 1];
                }
            }
        }
        for _ in 0..times {
            text.extend_from_slice(line)?;
            text.push(b'\n').map_err(|_| AllocError)?;
        }
    }
    Ok(text)
}

/// Whether a stranger refuses the text for what stands in it.
fn is_refused(alloc: Global, device: &mut MemoryDevice, text: &[u8]) -> bool {
    match answer_to(alloc, device, text) {
        Answer::BadLine(_) => true,
        Answer::CellDiffers(_) => true,
        Answer::NotShown(_) => true,
        Answer::Accepted(_, _) => false,
        Answer::Unanswered => false,
    }
}

#[test]
fn a_text_with_other_lines_is_refused(rt: HostRuntime) -> Result<(), Fail> {
    let mut device = small_volume(rt.alloc())?;
    for at in 0..LINES {
        for change in [
            Change::LeaveOut(at),
            Change::Double(at),
            Change::SwapWithNext(at),
        ] {
            let text = changed(rt.alloc(), change)?;
            let same = text.as_slice() == OF_A.as_bytes();
            assert!(rt;
                same || matches!(
                    answer_to(rt.alloc(), &mut device, text.as_slice()),
                    Answer::BadLine(_)
                ),
                "{:?}",
                change
            );
        }
    }
    for at in 1..LINES - 1 {
        let text = changed(rt.alloc(), Change::LeaveOutOne(at))?;
        assert_eq!(rt;
            answer_to(rt.alloc(), &mut device, text.as_slice()),
            Answer::NotShown(0),
            "line {}",
            at
        );
    }
    Ok(())
}

#[test]
fn a_text_with_another_byte_is_refused(rt: HostRuntime) -> Result<(), Fail> {
    let mut device = small_volume(rt.alloc())?;
    let mut tried = 0u32;
    for at in 0..OF_A.len() {
        for byte in [b'0', b'7', b'c', b'\n'] {
            let mut text = Vec::from_slice(rt.alloc(), OF_A.as_bytes())?;
            if at < text.len() && text[at] != byte {
                text[at] = byte;
                tried = tried.saturating_add(1);
                assert!(rt;
                    is_refused(rt.alloc(), &mut device, text.as_slice()),
                    "byte {} is {}",
                    at,
                    byte
                );
            }
        }
    }
    assert!(rt; tried > 1_000);
    Ok(())
}
