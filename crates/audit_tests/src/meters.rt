//! What an audit shows of how far it is.
use crate::cells::{Written, device_with};
use host_ports::{Meter, Work};
use std::test::Fail;
use volume_audit::{AuditReport, audit_metered};

/// A volume of 8 slots and 2 lists on 1,000 cells. Slot 0 has the document `b` and slot 2 the document `c`, each with no
/// body; slot 1 between them was given up.
const VOLUME: [Written; 15] = [
    (0, [1, 1, 0, 0, 0, 8, 0, 2, 0, 0, 3, 0xe8, 0, 0, 0, 0]),
    (4, [2, 0, 0, 2, 0x44, 0, 0, 0, 2, 0, 0, 0, 0, 0, 0, 4]),
    (5, [3, 0, 0, 0, 2, 0, 0, 0, 1, 0, 0, 0, 0, 0, 0, 5]),
    (6, [5, 0, 0, 0, 0, 0, 0, 0, 0, 0, 0, 0, 0, 0, 0, 6]),
    (8, [2, 0, 0, 2, 0x46, 0, 0, 0, 2, 0, 0, 0, 0, 0, 0, 8]),
    (9, [4, 0, 0, 0, 0, 0, 0, 0, 0, 0, 0, 0, 0, 0, 0, 9]),
    (12, [2, 0, 0, 2, 0x48, 0, 0, 0, 2, 0, 0, 0, 0, 0, 0, 12]),
    (13, [3, 0, 0, 0, 2, 0, 0, 0, 1, 0, 0, 0, 0, 0, 0, 13]),
    (14, [5, 0, 0, 0, 2, 0, 0, 0, 0, 0, 0, 0, 0, 0, 0, 14]),
    (580, [0x12, 1, b'b', 0, 0, 0, 0, 0, 0, 0, 0, 0, 0, 0, 0, 0]),
    (581, BUCKET_B),
    (551, BUCKET_B),
    (584, [0x12, 1, b'c', 0, 0, 0, 0, 0, 0, 0, 0, 0, 0, 0, 0, 0]),
    (585, BUCKET_C),
    (550, BUCKET_C),
];

/// The bucket of `b` in slot 0, for half byte 3 of the root.
const BUCKET_B: [u8; 16] = [
    8, 0, 0, 0, 0, 0x3e, 0x23, 0xe8, 0x16, 0, 0x39, 0x59, 0, 0, 2, 0x27,
];

/// The bucket of `c` in slot 2, for half byte 2 of the root.
const BUCKET_C: [u8; 16] = [
    8, 0, 0, 0, 2, 0x2e, 0x7d, 0x2c, 0x03, 0xa9, 0x50, 0x7a, 0, 0, 2, 0x26,
];

/// A meter that keeps the first five things that it is shown.
#[derive(Drop)]
struct Recorder {
    shown: [(Work, u64, u64); 5],
    count: usize,
}

impl Meter for Recorder {
    fn show(&mut self, work: Work, done: u64, of: u64) {
        if self.count < 5 {
            self.shown[self.count] = (work, done, of);
            self.count += 1;
        }
    }
}

/// Each slot below the horizon has two checks, and those of a slot that was given up are made at once.
#[test]
fn an_audit_shows_how_many_checks_are_made(rt: HostRuntime) -> Result<(), Fail> {
    let alloc = rt.alloc();
    let mut device = device_with(alloc, &VOLUME, &[])?;
    let mut meter = Recorder {
        shown: [(Work::Copying, 0, 0); 5],
        count: 0,
    };
    let audited = audit_metered(alloc, &mut device, &mut meter);
    let sound = AuditReport {
        done: 2,
        abandoned: 1,
        written: 15,
    };
    assert_eq!(rt; audited, Ok(sound));
    assert_eq!(rt;
        meter.shown[..],
        [
            (Work::Checking, 0, 6),
            (Work::Checking, 2, 6),
            (Work::Checking, 3, 6),
            (Work::Checking, 5, 6),
            (Work::Checking, 6, 6)
        ][..]
    );
    Ok(())
}
