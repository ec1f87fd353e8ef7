//! What parts of an audit answer: written cells over several chunks, the log, blocks, nodes and tilings.
use crate::cells::{Written, device_with};
use cell_types::{Cell, Geometry};
use list_audit::{ListBlock, blocks_for_two, blocks_of};
use log_audit::{KeptVolume, Shown, check_log, keep_cells};
use slot_audit::{first_broken_document, first_broken_journal, first_broken_tiling};
use std::alloc::Global;
use std::test::Fail;
use tree_audit::nodes_of;
use worm_device::{Device, View};
use worm_memory::MemoryDevice;

/// Two slots with documents, and one between them that is given up. Slot 2 reserves 260 cells from cell 619 on, states
/// 13 stored bytes and 2 journal cells, and is done.
const THREE: [Written; 8] = [
    (4, [2, 0, 0, 2, 0x44, 0, 0, 0, 4, 0, 0, 0, 0, 0, 0, 4]),
    (5, [3, 0, 0, 0, 13, 0, 0, 0, 3, 0, 0, 0, 0, 0, 0, 5]),
    (6, [5, 0, 0, 0, 0, 0, 0, 0, 0, 0, 0, 0, 0, 0, 0, 6]),
    (8, [2, 0, 0, 2, 0x48, 0, 0, 0, 0x23, 0, 0, 0, 0, 0, 0, 8]),
    (9, [4, 0, 0, 0, 0, 0, 0, 0, 0, 0, 0, 0, 0, 0, 0, 9]),
    (12, [2, 0, 0, 2, 0x6b, 0, 0, 1, 4, 0, 0, 0, 0, 0, 0, 12]),
    (13, [3, 0, 0, 0, 13, 0, 0, 0, 2, 0, 0, 0, 0, 0, 0, 13]),
    (14, [5, 0, 0, 0, 2, 0, 0, 0, 0, 0, 0, 0, 0, 0, 0, 14]),
];

/// In whose blocks a cell lies, of those three slots.
fn owner_in(alloc: Global, cell: u32) -> Result<Option<u32>, Fail> {
    let mut device = device_with(alloc, &THREE, &[])?;
    let kept = keep_cells(alloc, &mut device)?;
    let geometry = Geometry::new(8, 2, 1_000, 1).ok_or("no volume")?;
    let Ok(log) = check_log(alloc, &kept, &geometry) else {
        return Err("refused".into());
    };
    let volume = KeptVolume {
        kept,
        geometry,
        log,
    };
    Ok(volume.owner_of(cell))
}

/// The cell of this kind that leads to this one, for the cell with this address.
fn leading(kind: u8, target: u32, address: u32) -> [u8; 16] {
    let to = target.to_be_bytes();
    let at = address.to_be_bytes();
    [
        kind, to[0], to[1], to[2], to[3], 0, 0, 0, 0, 0, 0, 0, at[0], at[1], at[2], at[3],
    ]
}

/// At which cell rule 15 is broken in the volume whose slot 0 is done and reserves cells 580 to 870, with the identifier
/// "a" and the body "hello" at 868, and whose journal has a jump and a child to these cells.
fn tiled_with(alloc: Global, jump: u32, child: u32) -> Result<Option<u32>, Fail> {
    let cells = [
        (4, [2, 0, 0, 2, 0x44, 0, 0, 1, 0x23, 0, 0, 0, 0, 0, 0, 4]),
        (5, [3, 0, 0, 0, 7, 0, 0, 0, 2, 0, 0, 0, 0, 0, 0, 5]),
        (6, [5, 0, 0, 0, 0, 0, 0, 0, 0, 0, 0, 0, 0, 0, 0, 6]),
        (164, leading(7, jump, 164)),
        (565, leading(9, child, 565)),
        (
            868,
            [
                0x17, 1, b'a', b'h', b'e', b'l', b'l', b'o', 0, 0, 0, 0, 0, 0, 0, 0,
            ],
        ),
        (869, leading(7, jump, 164)),
        (870, leading(9, child, 565)),
    ];
    let mut device = device_with(alloc, &cells, &[])?;
    let kept = keep_cells(alloc, &mut device)?;
    let geometry = Geometry::new(8, 2, 1_000, 1).ok_or("no volume")?;
    if kept.count() != geometry.cells() {
        return Err("another device".into());
    }
    let Ok(log) = check_log(alloc, &kept, &geometry) else {
        return Err("no log".into());
    };
    let volume = KeptVolume {
        kept,
        geometry,
        log,
    };
    if let Some(_evidence) = first_broken_document(&volume) {
        return Err("rule 4 is broken".into());
    }
    if let Some(_evidence) = first_broken_journal(&volume) {
        return Err("rule 5 is broken".into());
    }
    let found = first_broken_tiling(alloc, &volume)?;
    Ok(found.map(|evidence| evidence.cell))
}

/// A device of 5,000 cells in which each of the first ones holds this.
fn device_filled_to(alloc: Global, end: u32, value: Cell) -> Result<MemoryDevice, Fail> {
    let mut device = MemoryDevice::new(alloc, 5_000)?;
    device.reserve(5_000)?;
    for at in 0..end {
        if at < device.cells() {
            let _ = device.foreign(at, value)?;
        }
    }
    Ok(device)
}

/// More written cells than a chunk holds, and a blank page behind them.
#[test]
fn each_written_cell_is_found_and_no_other(rt: HostRuntime) -> Result<(), Fail> {
    let value = Cell::from_bytes([9; 16]).ok_or("a blank cell")?;
    let mut device = device_filled_to(rt.alloc(), 4_200, value)?;
    let kept = keep_cells(rt.alloc(), &mut device)?;
    assert_eq!(rt; kept.count(), 5_000);
    assert_eq!(rt; kept.written(), 4_200);
    for at in [0, 255, 256, 4_095, 4_096, 4_199] {
        assert_eq!(rt; kept.at(at), Some(value));
    }
    for at in [4_200, 4_607, 4_999, 5_000, u32::MAX] {
        assert_eq!(rt; kept.at(at), None);
    }
    let mut shown = Shown::new(&kept);
    let mut row = [None; 2];
    shown.read_row(4_199, &mut row)?;
    assert_eq!(rt; row[0], Some(value));
    assert_eq!(rt; row[1], None);
    Ok(())
}

/// Slot 0 has no blocks; slot 1 is given up; slot 2 has its blocks before its document, which begins at 876.
#[test]
fn a_cell_of_blocks_has_its_owner(rt: HostRuntime) -> Result<(), Fail> {
    for (cell, owner) in [
        (580, None),
        (600, None),
        (618, None),
        (619, Some(2)),
        (875, Some(2)),
        (876, None),
        (u32::MAX, None),
    ] {
        assert_eq!(rt; owner_in(rt.alloc(), cell)?, owner);
    }
    Ok(())
}

/// A pointer of list 1 leads to a block to which one of list 0 leads, a pointer of that block back to it, and others to
/// cells before the pool and past the device.
#[test]
fn each_block_of_a_list_is_there_once(rt: HostRuntime) -> Result<(), Fail> {
    let cells = [
        (164, leading(7, 700, 164)),
        (421, leading(7, 700, 421)),
        (828, leading(7, 700, 828)),
        (829, leading(7, 36, 829)),
        (830, leading(7, 745, 830)),
    ];
    let mut device = device_with(rt.alloc(), &cells, &[])?;
    let kept = keep_cells(rt.alloc(), &mut device)?;
    let geometry = Geometry::new(8, 2, 1_000, 1).ok_or("no volume")?;
    let blocks = blocks_of(rt.alloc(), &kept, &geometry)?;
    let expected = [(0, 36), (1, 292), (0, 700), (1, 700)].map(|(list, block)| ListBlock {
        list,
        block,
    });
    assert_eq!(rt; blocks.blocks.as_slice(), expected.as_slice());
    Ok(())
}

/// A pointer of each of three lists leads to 840, and one of 840 to 1,100. The first 1,000 cells are kept.
#[test]
fn a_block_of_three_lists_is_there_for_two(rt: HostRuntime) -> Result<(), Fail> {
    let cells = [
        (164, leading(7, 840, 164)),
        (420, leading(7, 840, 420)),
        (676, leading(7, 840, 676)),
        (968, leading(7, 1_100, 968)),
    ];
    let mut device = device_with(rt.alloc(), &cells, &[])?;
    let kept = keep_cells(rt.alloc(), &mut device)?;
    let geometry = Geometry::new(8, 3, 1_400, 1).ok_or("no volume")?;
    let found = blocks_for_two(rt.alloc(), &kept, &geometry)?;
    let firsts = [(0, 36), (1, 292), (2, 548)];
    let behind = [(0, 840), (1, 840), (0, 1_100), (1, 1_100)];
    assert_eq!(rt; found.blocks.len(), 7);
    for ((list, block), listed) in firsts.into_iter().chain(behind).zip(&found.blocks) {
        assert_eq!(rt; *listed, ListBlock { list, block });
    }
    let all = blocks_of(rt.alloc(), &kept, &geometry)?;
    assert_eq!(rt; all.blocks.len(), 9);
    Ok(())
}

/// A child cell of the root leads to 700 and one of 700 to 640 and to itself; others lead before the pool and past the
/// device, and two to one node.
#[test]
fn each_node_is_there_once(rt: HostRuntime) -> Result<(), Fail> {
    let cells = [
        (576, leading(9, 700, 576)),
        (577, leading(9, 548, 577)),
        (578, leading(9, 969, 578)),
        (579, leading(9, 700, 579)),
        (716, leading(9, 640, 716)),
        (717, leading(9, 700, 717)),
    ];
    let mut device = device_with(rt.alloc(), &cells, &[])?;
    let kept = keep_cells(rt.alloc(), &mut device)?;
    let geometry = Geometry::new(8, 2, 1_000, 1).ok_or("no volume")?;
    let nodes = nodes_of(rt.alloc(), &kept, &geometry)?;
    // The root; 640 at each level from 2 to 63; and 700 at each from 1 on.
    assert_eq!(rt; nodes.nodes.as_slice(), [548, 640, 700].as_slice());
    assert_eq!(rt; nodes.on_last.as_slice(), [false, true, true].as_slice());
    Ok(())
}

/// A child cell of the root leads to 700, one of 700 to 640, and one of 640 to 700: so 700 is at each odd level, 640 at each
/// even one, and no level has the nodes of the one above.
#[test]
fn a_node_of_each_other_level_is_one_of_the_last(rt: HostRuntime) -> Result<(), Fail> {
    let cells = [
        (576, leading(9, 700, 576)),
        (716, leading(9, 640, 716)),
        (656, leading(9, 700, 656)),
    ];
    let mut device = device_with(rt.alloc(), &cells, &[])?;
    let kept = keep_cells(rt.alloc(), &mut device)?;
    let geometry = Geometry::new(8, 2, 1_000, 1).ok_or("no volume")?;
    let nodes = nodes_of(rt.alloc(), &kept, &geometry)?;
    assert_eq!(rt; nodes.nodes.as_slice(), [548, 640, 700].as_slice());
    assert_eq!(rt; nodes.on_last.as_slice(), [false, false, true].as_slice());
    Ok(())
}

/// The block before the node, and behind it, keep rule 15. It is broken where the node begins within the block, leaves a
/// cell before it, lies where the block does, or is another slot's; or where the block begins late, passes the end, or is
/// another slot's.
#[test]
fn tiles_follow_one_another(rt: HostRuntime) -> Result<(), Fail> {
    for (jump, child, broken) in [
        (580, 836, None),
        (612, 580, None),
        (580, 835, Some(5)),
        (580, 837, Some(5)),
        (580, 580, Some(5)),
        (580, 900, Some(5)),
        (581, 836, Some(5)),
        (613, 580, Some(5)),
        (100, 836, Some(5)),
    ] {
        assert_eq!(rt; tiled_with(rt.alloc(), jump, child)?, broken);
    }
    Ok(())
}
