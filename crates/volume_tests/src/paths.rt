//! Steps along paths built by hand in a memory device, on volumes of 8 slots and 2 lists: the root is at 548, the pool
//! at 580. What a look-up and an ingest make of a path are the rows `paths.rows` of `worked_rows`.
ghost use Rattle.std.specs.Prelude.{◌<◌, ◌≤◌};
ghost use Rattle.cell_types.specs.declared.geometry.TheConstants.{MAX_CELLS};

use cell_types::{Cell, Evidence, FIRST_VERSION, Fault, Geometry, RecordCell, Volume, encode};
use hash_tree::{Level, Open, PathStep, next_candidate};
use std::alloc::Global;
use std::test::Fail;
use worm_device::{Device, Direct};
use worm_memory::MemoryDevice;

/// The digest of the identifier `a`.
const A: [u8; 32] = [
    0xca, 0x97, 0x81, 0x12, 0xca, 0x1b, 0xbd, 0xca, 0xfa, 0xc2, 0x31, 0xb3, 0x9a, 0x23, 0xdc, 0x4d,
    0xa7, 0x86, 0xef, 0xf8, 0x14, 0x7c, 0x4e, 0x72, 0xb9, 0x80, 0x77, 0x85, 0xaf, 0xee, 0x48, 0xbb,
];

/// The fingerprints of `a` and `b`.
const OF_A: [u8; 7] = [0xca, 0x97, 0x81, 0x12, 0xca, 0x1b, 0xbd];

const OF_B: [u8; 7] = [0x3e, 0x23, 0xe8, 0x16, 0x00, 0x39, 0x59];

/// The first six bytes as in `OF_A`, and another last one.
const NEARLY_A: [u8; 7] = [0xca, 0x97, 0x81, 0x12, 0xca, 0x1b, 0xbe];

/// A device of so many cells with room for 130 writes.
fn new_device(alloc: Global, cells: u32) -> Result<MemoryDevice, Fail>
    requires some { 1 ≤ cells }
    requires most { cells ≤ MAX_CELLS }
{
    let mut made = MemoryDevice::new(alloc, cells)?;
    made.reserve(130)?;
    Ok(made)
}

/// Puts a cell where the device has it.
fn put(device: &mut MemoryDevice, at: u32, value: Cell) -> Result<(), Fail> {
    if at >= device.cells() {
        return Err("no such cell".into());
    }
    let _ = device.write(at, value)?;
    Ok(())
}

fn put_bucket(
    device: &mut MemoryDevice,
    at: u32,
    slot: u32,
    fingerprint: [u8; 7],
) -> Result<(), Fail>
    requires { slot < 64 }
{
    put(
        device,
        at,
        encode(RecordCell::Bucket { slot, fingerprint }, at),
    )
}

fn put_child(device: &mut MemoryDevice, at: u32, target: u32) -> Result<(), Fail> {
    put(device, at, encode(RecordCell::Child { target }, at))
}

/// What two calls in a row answer, from the root on. Slots reserve cells up to the edge.
fn two_steps(
    device: &mut MemoryDevice,
    edge: u32,
    digest: [u8; 32],
) -> Result<[Result<PathStep, Fault>; 2], Fail> {
    let geometry = Geometry::new(8, 2, device.cells(), FIRST_VERSION).ok_or("no volume")?;
    if edge < geometry.pool_at() || edge > geometry.cells() {
        return Err("no edge".into());
    }
    let volume = Volume {
        version: FIRST_VERSION,
        geometry,
    };
    let mut view = Direct::new(device);
    let mut level = Level::start(digest);
    let first = next_candidate(&mut view, &volume, edge, &mut level);
    let second = next_candidate(&mut view, &volume, edge, &mut level);
    Ok([first, second])
}

/// A blank bucket, and a cell of no kind for a bucket and for a child cell.
#[test]
fn what_ends_a_path_is_told_again(rt: HostRuntime) -> Result<(), Fail> {
    let mut device = new_device(rt.alloc(), 1_000)?;
    let blank = Ok(PathStep::End(Open {
        bucket: 560,
        child: None,
    }));
    assert_eq!(rt; two_steps(&mut device, 580, A)?, [blank, blank]);
    let found = Cell::from_bytes([0xff; 16]).ok_or("a blank cell")?;
    put(&mut device, 560, found)?;
    let named = Err(Fault::Tampered(Evidence {
        rule: 11,
        cell: 560,
        found,
    }));
    assert_eq!(rt; two_steps(&mut device, 1_000, A)?, [named, named]);
    let mut device = new_device(rt.alloc(), 1_000)?;
    put_bucket(&mut device, 560, 0, NEARLY_A)?;
    put(&mut device, 576, found)?;
    let named = Err(Fault::Tampered(Evidence {
        rule: 12,
        cell: 576,
        found,
    }));
    assert_eq!(rt; two_steps(&mut device, 1_000, A)?, [named, named]);
    Ok(())
}

/// The whole path of `a`: its nodes lie one behind another, and the bucket of level v names slot v. The last one has
/// this fingerprint, and the others have that of `b`.
fn put_path(device: &mut MemoryDevice, last: [u8; 7]) -> Result<(), Fail> {
    let mut node = 548_u32;
    for v in 0_u8..64 {
        let byte = u32::from(A[usize::from(v / 2)]);
        let bucket = node.saturating_add(if v % 2 == 0 { byte / 16 } else { byte % 16 });
        let fingerprint = if v == 63 { last } else { OF_B };
        put_bucket(device, bucket, u32::from(v), fingerprint)?;
        node = node.saturating_add(32);
        if v < 63 {
            put_child(device, bucket.saturating_add(16), node)?;
        }
    }
    Ok(())
}

#[test]
fn a_path_of_64_levels(rt: HostRuntime) -> Result<(), Fail> {
    let full = Ok(PathStep::PathFull);
    let mut device = new_device(rt.alloc(), 3_000)?;
    put_path(&mut device, NEARLY_A)?;
    assert_eq!(rt; two_steps(&mut device, 2_596, A)?, [full, full]);
    // The last node is at 2564, and the last half byte is 11.
    let candidate = Ok(PathStep::Candidate {
        slot: 63,
        bucket: 2_575,
    });
    let mut device = new_device(rt.alloc(), 3_000)?;
    put_path(&mut device, OF_A)?;
    assert_eq!(rt; two_steps(&mut device, 2_596, A)?, [candidate, full]);
    Ok(())
}
