//! Entries on a volume of 8 slots and 2 lists in memory: the root is at 548, the pool at 580.
ghost use Rattle.std.specs.Prelude.{◌≡◌};

use cell_pool::{GrowthFault, Pool};
use cell_types::{Cell, Evidence, FIRST_VERSION, Fault, Geometry, RecordCell, Volume, encode};
use hash_tree::{Level, Open, PathStep, insert, next_candidate};
use std::test::Fail;
use worm_device::{Device, Direct, Overlay, Owner, PlannedCells, View};
use worm_memory::MemoryDevice;

/// The digest of the identifier `e`.
const E: [u8; 32] = [
    0x3f, 0x79, 0xbb, 0x7b, 0x43, 0x5b, 0x05, 0x32, 0x16, 0x51, 0xda, 0xef, 0xd3, 0x74, 0xcd, 0xc6,
    0x81, 0xdc, 0x06, 0xfa, 0xa6, 0x5e, 0x37, 0x4e, 0x38, 0x33, 0x7b, 0x88, 0xca, 0x04, 0x6d, 0xea,
];

/// The bucket of `b` in slot 0, in the root: its digest begins as that of `e`.
const BUCKET_OF_B: [u8; 16] = [
    8, 0, 0, 0, 0, 0x3e, 0x23, 0xe8, 0x16, 0x00, 0x39, 0x59, 0, 0, 2, 0x27,
];

#[test]
fn the_first_identifier_takes_a_bucket_of_the_root(rt: HostRuntime) -> Result<(), Fail> {
    let mut device = MemoryDevice::new(rt.alloc(), 1_000)?;
    let geometry = Geometry::new(8, 2, 1_000, FIRST_VERSION).ok_or("no volume")?;
    let volume = Volume {
        version: FIRST_VERSION,
        geometry,
    };
    let mut own = PlannedCells::new(rt.alloc());
    let mut overlay = Overlay::new(Direct::new(&mut device), &mut own, 582);
    let mut pool = Pool::over(582, 1_000);
    let place = Open {
        bucket: 551,
        child: None,
    };
    let level = Level::start(E);
    let done = insert(&mut overlay, &mut pool, &volume, place, &level, 1);
    assert_eq!(rt; done, Ok(551));
    assert_eq!(rt; pool.next(), 582);
    assert_eq!(rt; overlay.planned().len(), 1);
    let bucket = overlay.read(551)?.ok_or("no bucket")?;
    assert_eq!(rt;
        bucket.bytes(),
        [
            8, 0, 0, 0, 1, 0x3f, 0x79, 0xbb, 0x7b, 0x43, 0x5b, 0x05, 0, 0, 2, 0x27
        ]
    );
    assert_eq!(rt;
        overlay.owner(551),
        Some(Owner {
            head: 548,
            base: 548
        })
    );
    Ok(())
}

#[test]
fn an_identifier_under_another_takes_a_node(rt: HostRuntime) -> Result<(), Fail> {
    let mut device = MemoryDevice::new(rt.alloc(), 1_000)?;
    device.reserve(2)?;
    let bucket_of_b = Cell::from_bytes(BUCKET_OF_B).ok_or("a blank cell")?;
    let _ = device.write(551, bucket_of_b)?;
    let geometry = Geometry::new(8, 2, 1_000, FIRST_VERSION).ok_or("no volume")?;
    let volume = Volume {
        version: FIRST_VERSION,
        geometry,
    };
    let mut own = PlannedCells::new(rt.alloc());
    let mut overlay = Overlay::new(Direct::new(&mut device), &mut own, 582);
    let mut pool = Pool::over(582, 1_000);
    let place = Open {
        bucket: 551,
        child: Some(567),
    };
    let level = Level::start(E);
    let done = insert(&mut overlay, &mut pool, &volume, place, &level, 1);
    assert_eq!(rt; done, Ok(597));
    assert_eq!(rt; pool.next(), 614);
    assert_eq!(rt; overlay.planned().len(), 2);
    let child = overlay.read(567)?.ok_or("no child cell")?;
    assert_eq!(rt;
        child.bytes(),
        [9, 0, 0, 2, 0x46, 0, 0, 0, 0, 0, 0, 0, 0, 0, 2, 0x37]
    );
    assert_eq!(rt;
        overlay.owner(567),
        Some(Owner {
            head: 548,
            base: 548
        })
    );
    let bucket = overlay.read(597)?.ok_or("no bucket")?;
    assert_eq!(rt;
        bucket.bytes(),
        [
            8, 0, 0, 0, 1, 0x3f, 0x79, 0xbb, 0x7b, 0x43, 0x5b, 0x05, 0, 0, 2, 0x55
        ]
    );
    assert_eq!(rt;
        overlay.owner(597),
        Some(Owner {
            head: 548,
            base: 582
        })
    );
    let mut sought = Level::start(E);
    let found = next_candidate(&mut overlay, &volume, 614, &mut sought);
    let candidate = PathStep::Candidate {
        slot: 1,
        bucket: 597,
    };
    assert_eq!(rt; found, Ok(candidate));
    Ok(())
}

/// Somebody led a child cell of the root to cell 580, and cell 595 there is planned for list 1.
#[test]
fn a_node_that_is_planned_for_a_list_is_evidence(rt: HostRuntime) -> Result<(), Fail> {
    let mut device = MemoryDevice::new(rt.alloc(), 1_000)?;
    device.reserve(4)?;
    let bucket_of_b = Cell::from_bytes(BUCKET_OF_B).ok_or("a blank cell")?;
    let child = encode(RecordCell::Child { target: 580 }, 567);
    let _ = device.write(551, bucket_of_b)?;
    let _ = device.write(567, child)?;
    let geometry = Geometry::new(8, 2, 1_000, FIRST_VERSION).ok_or("no volume")?;
    let volume = Volume {
        version: FIRST_VERSION,
        geometry,
    };
    let mut level = Level::start(E);
    let step = next_candidate(&mut Direct::new(&mut device), &volume, 836, &mut level);
    let Ok(end) = step else {
        return Err("a fault".into());
    };
    let PathStep::End(place) = end else {
        return Err("no end".into());
    };
    let mut own = PlannedCells::new(rt.alloc());
    let mut overlay = Overlay::new(Direct::new(&mut device), &mut own, 836);
    let led_by = level.led_by;
    let Some(_led) = led_by else {
        return Err("still in the root".into());
    };
    if overlay.fresh() != 836 || place.bucket >= 836 {
        return Err("past the edge".into());
    }
    let of_list = Owner {
        head: 292,
        base: 580,
    };
    overlay.plan(place.bucket, child, of_list)?;
    let mut pool = Pool::over(836, 1_000);
    let done = insert(&mut overlay, &mut pool, &volume, place, &level, 1);
    let evidence = Evidence {
        rule: 12,
        cell: 567,
        found: child,
    };
    assert_eq!(rt; done, Err(GrowthFault::Fault(Fault::Tampered(evidence))));
    assert_eq!(rt; pool.next(), 836);
    assert_eq!(rt; overlay.planned().len(), 1);
    Ok(())
}
