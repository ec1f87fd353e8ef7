//! How often a find reads the first cells of a list on the device.
ghost use Rattle.std.specs.Prelude.{◌≡◌, ◌<◌};
ghost use Rattle.worm_device.specs.Calls.{Reads, Syncs, Writes};

use cell_types::Cell;
use record_query::find;
use std::alloc::Global;
use std::test::Fail;
use volume_meaning::WordRule;
use word_reader::{Term, single_term};
use worm_device::{Device, Failed, Written};
use worm_memory::MemoryDevice;

/// Of how many cells, from cell 0 on, reads are counted.
const COUNTED: u32 = 64;

/// A device that counts how often each of its first cells is read. A row is read cell by cell.
#[derive(Drop)]
struct Counted<D: Device> {
    device: D,
    reads: [u32; 64],
}

impl<D: Device> Device for Counted<D> {
    ghost state = { λ c. D.state c.device };

    ghost proper = { λ c. D.proper c.device };

    fn cells(&self) -> u32 {
        self.device.cells()
    }

    fn read(&mut self, at: u32) -> Result<Option<Cell>, Failed> {
        if at < COUNTED {
            self.reads[at as usize] = self.reads[at as usize].saturating_add(1);
        }
        self.device.read(at)
    }

    fn write(&mut self, at: u32, value: Cell) -> Result<Written, Failed> {
        self.device.write(at, value)
    }

    fn sync(&mut self) -> Result<(), Failed> {
        self.device.sync()
    }
}

/// The written cells of the small volume, whose document `a` has the body `hello world`.
const SMALL_VOLUME: [(u32, u128); 11] = [
    (0, 0x01_01_00000008_0002_000003e8_00000000),
    (4, 0x02_00000244_00000004_000000_00000004),
    (5, 0x03_0000000d_00000003_000000_00000005),
    (6, 0x05_00000000_00000000000000_00000006),
    (36, 0x06_00000000_01_2cf24dba5fb0_00000024),
    (37, 0x06_00000001_01_486ea46224d1_00000025),
    (560, 0x08_00000000_ca978112ca1bbd_00000230),
    (580, 0x1d_01_61_68656c6c6f20776f726c64_0000),
    (581, 0x06_00000000_01_2cf24dba5fb0_00000024),
    (582, 0x06_00000001_01_486ea46224d1_00000025),
    (583, 0x08_00000000_ca978112ca1bbd_00000230),
];

/// The small volume on a device whose reads are counted from now on.
fn small_volume(alloc: Global) -> Result<Counted<MemoryDevice>, Fail> {
    let mut device = MemoryDevice::new(alloc, 1_000)?;
    device.reserve(20)?;
    for (at, digits) in SMALL_VOLUME {
        let Some(cell) = Cell::from_bytes(digits.to_be_bytes()) else {
            return Err(Fail::from("a cell is blank"));
        };
        if at < device.cells() && device.write(at, cell).is_err() {
            return Err(Fail::from("a cell was not written"));
        }
    }
    Ok(Counted {
        device,
        reads: [0; 64],
    })
}

/// The term of a word.
fn term_of(alloc: Global, word: &str) -> Result<Term, Fail> {
    let Ok(term) = single_term(alloc, word.as_bytes(), WordRule::Ascii) else {
        return Err(Fail::from("no term"));
    };
    Ok(term)
}

#[test]
fn a_find_reads_the_first_cells_of_a_list_once(rt: HostRuntime) -> Result<(), Fail> {
    let alloc = rt.alloc();
    let mut device = small_volume(alloc)?;
    let terms = [term_of(alloc, "hello")?, term_of(alloc, "world")?];
    let Ok(found) = find(alloc, &mut device, &terms) else {
        return Err(Fail::from("the find was refused"));
    };
    assert_eq!(rt; found.len(), 1);
    let Some(a) = found.first() else {
        return Err(Fail::from("nothing was found"));
    };
    assert_eq!(rt; a.slot, 0);
    assert_eq!(rt; a.identifier.bytes(), b"a".as_slice());
    assert_eq!(rt; a.bytes, 11);
    // The list of both words is read from these two cells on, and for each word anew.
    assert_eq!(rt; device.reads[36], 1);
    assert_eq!(rt; device.reads[37], 1);
    Ok(())
}
