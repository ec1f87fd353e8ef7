//! A plan put onto the small volume of 8 slots and 2 lists on 1,000 cells, cell by cell. What is expected was written
//! by hand. What settling writes are the rows `settling.rows` of `worked_rows`.
ghost use Rattle.std.specs.Prelude.{◌≡◌, ◌<◌, ◌≤◌, IfOk};
ghost use Rattle.cell_types.specs.declared.geometry.TheConstants.{FIRST_VERSION};
ghost use Rattle.plan_writer.specs.Planned.{laid};
ghost use Rattle.recovery_engine.specs.Entries.{AreEntries};
ghost use Rattle.worm_memory.specs.Device.{memory_of};

use cell_types::{
    Cell, Evidence, FIRST_VERSION, Fault, Geometry, RecordCell, Volume, content, encode,
};
use plan_writer::{Plan, put_planned};
use recovery_engine::{Ready, Step, settle};
use std::alloc::Global;
use std::test::Fail;
use worm_device::Device;
use worm_memory::{Change, MemoryDevice};

/// 8 slots, 2 lists, 1,000 cells.
const VOLUME: u128 = 0x01_01_00000008_0002_000003e8_00000000;

/// What is put, phase by phase. A sync stands behind each.
const PHASES: [&[(u32, u128)]; 5] = [
    &[(4, 0x02_00000244_00000003_000000_00000004)],
    &[
        (580, 0x1d_01_61_68656c6c6f20776f726c64_0000),
        (581, 0x06_00000000_00_2cf24dba5fb0_00000024),
        (582, 0x08_00000000_ca978112ca1bbd_00000230),
    ],
    &[(5, 0x03_0000000d_00000002_000000_00000005)],
    &[
        (36, 0x06_00000000_00_2cf24dba5fb0_00000024),
        (560, 0x08_00000000_ca978112ca1bbd_00000230),
    ],
    &[(6, 0x05_00000000_00000000000000_00000006)],
];

/// A written cell by its 32 hexadecimal digits.
fn cell_of(digits: u128) -> Result<Cell, Fail> {
    Ok(Cell::from_bytes(digits.to_be_bytes()).ok_or("a blank cell")?)
}

/// The small volume, and nothing else.
fn small_volume(alloc: Global) -> Result<MemoryDevice, Fail>
    ensures { IfOk result (λ device. (memory_of device).cells ≡ 1000) }
{
    let mut device = MemoryDevice::new(alloc, 1_000)?;
    device.reserve(32)?;
    let _ = device.foreign(0, cell_of(VOLUME)?)?;
    Ok(device)
}

/// What settling answers on it.
fn empty(geometry: Geometry) -> Ready
    ensures volume { result.volume ≡ record { version = FIRST_VERSION; geometry = geometry } }
    ensures horizon { result.horizon ≡ 0 }
    ensures edge { result.edge ≡ 580 }
{
    Ready {
        volume: Volume {
            version: FIRST_VERSION,
            geometry,
        },
        horizon: 0,
        edge: 580,
        step: Step::Nothing,
    }
}

/// The journal of `a` with `hello`: its posting and its bucket.
fn journal() -> [Cell; 2]
    ensures { AreEntries 36 (laid 581 result) 581 580 2 }
{
    let hello = RecordCell::Posting {
        key: 0,
        last: 0,
        tag: [0x2c, 0xf2, 0x4d, 0xba, 0x5f, 0xb0],
    };
    let identifier = RecordCell::Bucket {
        slot: 0,
        fingerprint: [0xca, 0x97, 0x81, 0x12, 0xca, 0x1b, 0xbd],
    };
    [encode(hello, 36), encode(identifier, 560)]
}

/// Puts the document `a` with `hello world` into slot 0.
fn put_document(device: &mut MemoryDevice) -> Result<Result<u32, Fault>, Fail>
    requires { (memory_of device.old).cells ≡ 1000 }
{
    let geometry = Geometry::new(8, 2, 1_000, FIRST_VERSION).ok_or("no volume")?;
    let ready = empty(geometry);
    let document = [content(b"\x01ahello world")];
    let journal = journal();
    let plan = Plan {
        start: 580,
        block_length: 0,
        document: &document,
        journal: &journal,
        bytes: 13,
        stamp: None,
    };
    Ok(put_planned(device, &ready, &plan))
}

#[test]
fn each_phase_is_sure_before_the_next(rt: HostRuntime) -> Result<(), Fail> {
    let mut device = small_volume(rt.alloc())?;
    let geometry = Geometry::new(8, 2, 1_000, FIRST_VERSION).ok_or("no volume")?;
    assert_eq!(rt; settle(&mut device), Ok(empty(geometry)));
    let before = device.changes().len();
    assert_eq!(rt; put_document(&mut device)?, Ok(0));
    let mut next = before;
    for phase in PHASES {
        for &(at, digits) in phase {
            let value = cell_of(digits)?;
            assert_eq!(rt;
                device.changes().get(next),
                Some(&Change::Wrote { at, value })
            );
            next += 1;
        }
        assert_eq!(rt; device.changes().get(next), Some(&Change::Synced));
        next += 1;
    }
    assert_eq!(rt; device.changes().len(), next);
    Ok(())
}

#[test]
fn a_written_cell_is_named_by_its_rule(rt: HostRuntime) -> Result<(), Fail> {
    for (at, rule) in [(5, 2), (6, 3), (7, 7), (580, 7), (582, 7)] {
        let mut device = small_volume(rt.alloc())?;
        let found = encode(RecordCell::Abandon, at);
        let _ = device.foreign(at, found)?;
        let evidence = Evidence {
            rule,
            cell: at,
            found,
        };
        assert_eq!(rt; put_document(&mut device)?, Err(Fault::Tampered(evidence)));
    }
    Ok(())
}
