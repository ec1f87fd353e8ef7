//! What is kept on a volume of 8 slots and 2 lists on 1,000 cells, built by hand in memory: the lists begin at 36, the
//! root is at 548, the pool at 580. Slot 0 holds the document `a`, `hello world` with its index.
use cell_types::{Cell, RecordCell, encode};
use commit_record::open;
use kept_documents::{has_hash_trail, has_trail, is_kept};
use std::alloc::Global;
use std::test::Fail;
use volume_meaning::PostingFields;
use worm_device::{Device, Direct};
use worm_memory::MemoryDevice;

/// A cell's number, and the bytes that stand there.
type Written = (u32, [u8; 16]);

/// The postings of `hello` and `world`, and the bucket of `a`, whose digest begins ca 97 81 12 ca 1b bd.
const HELLO: [u8; 16] = [
    6, 0, 0, 0, 0, 1, 0x2c, 0xf2, 0x4d, 0xba, 0x5f, 0xb0, 0, 0, 0, 0x24,
];

const WORLD: [u8; 16] = [
    6, 0, 0, 0, 1, 1, 0x48, 0x6e, 0xa4, 0x62, 0x24, 0xd1, 0, 0, 0, 0x25,
];

const BUCKET_OF_A: [u8; 16] = [
    8, 0, 0, 0, 0, 0xca, 0x97, 0x81, 0x12, 0xca, 0x1b, 0xbd, 0, 0, 2, 0x30,
];

/// The cells that the document rests on: 8 slots, 2 lists, 1,000 cells; slot 0 reserves the cells 580 to 583, for 13
/// stored bytes and 3 journal cells, and is done; the document; two postings and a bucket.
const CELLS: [Written; 8] = [
    (0, [1, 1, 0, 0, 0, 8, 0, 2, 0, 0, 3, 0xe8, 0, 0, 0, 0]),
    (4, [2, 0, 0, 2, 0x44, 0, 0, 0, 4, 0, 0, 0, 0, 0, 0, 4]),
    (5, [3, 0, 0, 0, 13, 0, 0, 0, 3, 0, 0, 0, 0, 0, 0, 5]),
    (6, [5, 0, 0, 0, 0, 0, 0, 0, 0, 0, 0, 0, 0, 0, 0, 6]),
    (36, HELLO),
    (37, WORLD),
    (560, BUCKET_OF_A),
    (580, *b"\x1d\x01ahello world\0\0"),
];

/// The first seven bytes of the digest of `b`.
const OF_B: [u8; 7] = [0x3e, 0x23, 0xe8, 0x16, 0x00, 0x39, 0x59];

/// Puts a cell where the device has it.
fn put(device: &mut MemoryDevice, at: u32, value: Cell) -> Result<(), Fail> {
    if at < device.cells() {
        let _ = device.write(at, value)?;
    }
    Ok(())
}

/// The volume with these cells but one, and room for further ones.
fn volume_without(alloc: Global, left_out: u32) -> Result<MemoryDevice, Fail> {
    let mut device = MemoryDevice::new(alloc, 1_000)?;
    device.reserve(160)?;
    for (at, bytes) in CELLS {
        let value = Cell::from_bytes(bytes).ok_or("a blank cell")?;
        if at != left_out {
            put(&mut device, at, value)?;
        }
    }
    Ok(device)
}

#[test]
fn a_document_is_kept_by_eight_cells(rt: HostRuntime) -> Result<(), Fail> {
    for (left_out, kept) in [
        (1, Some(11)),
        (0, None),
        (4, None),
        (5, None),
        (6, None),
        (36, None),
        (37, None),
        (560, None),
        (580, None),
    ] {
        let mut device = volume_without(rt.alloc(), left_out)?;
        let mut view = Direct::new(&mut device);
        assert_eq!(rt;
            is_kept(rt.alloc(), &mut view, 0, b"a"),
            Ok(kept),
            "without cell {left_out}"
        );
        assert_eq!(rt; is_kept(rt.alloc(), &mut view, 0, b"b"), Ok(None));
        assert_eq!(rt; is_kept(rt.alloc(), &mut view, 1, b"a"), Ok(None));
        assert_eq!(rt; is_kept(rt.alloc(), &mut view, 16_777_216, b"a"), Ok(None));
    }
    Ok(())
}

/// Puts a posting with this key, where the device has the cell.
fn put_posting(device: &mut MemoryDevice, at: u32, key: u32) -> Result<(), Fail> {
    let posting = RecordCell::Posting {
        key,
        last: 255,
        tag: [1; 6],
    };
    put(device, at, encode(posting, at))
}

/// A list whose first block, at 36, is full of the keys 0 to 127. Its pointer for key 128 is cell 164.
fn full_block(alloc: Global) -> Result<MemoryDevice, Fail> {
    let mut device = MemoryDevice::new(alloc, 1_000)?;
    device.reserve(160)?;
    for key in 0..128u32 {
        put_posting(&mut device, 36 + key, key)?;
    }
    Ok(device)
}

/// Whether the posting with this key and this tag has a trail from 36, through blocks from 600 on.
fn trailed(device: &mut MemoryDevice, key: u32, tag: [u8; 6]) -> Result<bool, Fail> {
    if device.cells() < 1_000 {
        return Err("too few cells".into());
    }
    let wanted = PostingFields {
        key,
        last: 255,
        tag,
    };
    has_trail(&mut Direct::new(device), 600, 36, wanted).map_err(|_| "a read failed".into())
}

#[test]
fn a_posting_is_found_behind_its_pointer_alone(rt: HostRuntime) -> Result<(), Fail> {
    let ones = Cell::from_bytes([0xff; 16]).ok_or("a blank cell")?;
    let to_600 = encode(RecordCell::Jump { target: 600 }, 164);
    let to_599 = encode(RecordCell::Jump { target: 599 }, 164);
    for (pointer, at, found) in [
        (to_600, 600, true),
        // Behind a blank place, in a block below the pool, and behind a cell that is no pointer.
        (to_600, 601, false),
        (to_599, 599, false),
        (ones, 600, false),
    ] {
        let mut device = full_block(rt.alloc())?;
        put(&mut device, 164, pointer)?;
        put_posting(&mut device, at, 128)?;
        assert_eq!(rt;
            trailed(&mut device, 128, [1; 6])?,
            found,
            "posting in {at}"
        );
        assert_eq!(rt; trailed(&mut device, 129, [1; 6])?, false);
        assert_eq!(rt; trailed(&mut device, 5, [1; 6])?, true);
        assert_eq!(rt; trailed(&mut device, 5, [2; 6])?, false);
    }
    Ok(())
}

/// Whether the slot has a hash trail as that of `b`.
fn led_to_b(device: &mut MemoryDevice, slot: u32) -> Result<bool, Fail> {
    if device.cells() == 0 {
        return Err("no cells".into());
    }
    let mut view = Direct::new(device);
    let Ok(volume) = open(&mut view) else {
        return Err("no volume".into());
    };
    has_hash_trail(&mut view, &volume, slot, b"b").map_err(|_| "a read failed".into())
}

/// The digest of `b` begins 3e: bucket 551 of the root, and bucket 14 of the node below its child cell 567.
#[test]
fn a_bucket_with_the_fingerprint_is_passed_by_its_slots_document(
    rt: HostRuntime,
) -> Result<(), Fail> {
    for (slot, passed) in [(0, true), (3, false)] {
        let mut device = volume_without(rt.alloc(), 1)?;
        for (at, named) in [(551, slot), (614, 1)] {
            let bucket = RecordCell::Bucket {
                slot: named,
                fingerprint: OF_B,
            };
            put(&mut device, at, encode(bucket, at))?;
        }
        put(
            &mut device,
            567,
            encode(RecordCell::Child { target: 600 }, 567),
        )?;
        assert_eq!(rt; led_to_b(&mut device, slot)?, true);
        assert_eq!(rt; led_to_b(&mut device, 1)?, passed, "bucket of slot {slot}");
        assert_eq!(rt; led_to_b(&mut device, 2)?, false);
    }
    Ok(())
}
