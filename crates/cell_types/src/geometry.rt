//! Where the parts of a volume lie.
//!
//! With 8 slots and 2 lists on 1,000 cells:
//!
//!     0       volume cell            36 to 291    first block of list 0
//!     1-3     stay blank             292 to 547   first block of list 1
//!     4-7     slot 0                 548 to 579   root node
//!     32-35   slot 7                 580 to 999   pool
ghost use Rattle.std.specs.Prelude.{◌≡◌, ◌<◌, ◌≤◌, ◌+◌, ◌-◌, ◌*◌, ◌↔◌, min, IsSome, IfSome, IsTrue};
ghost use Rattle.cell_types.specs.declared.geometry.TheConstants.{FIRST_VERSION, FOLDED_VERSION, MAX_SLOTS, MAX_LISTS, NEWEST_VERSION, STAMPED_VERSION};
ghost use Rattle.cell_types.specs.Layout.{IsLayout, PartsAreApart, PartsCoverTheDevice, TakesStamps};
ghost use Rattle.cell_types.specs.Layout as layout;

use std::marker::Model;

/// The first version of the format.
pub const FIRST_VERSION: u8 = 1;

/// The version from which on words go past ASCII.
pub const FOLDED_VERSION: u8 = 2;

/// The version whose documents are stamped.
pub const STAMPED_VERSION: u8 = 3;

/// The newest version that this code reads and writes.
pub const NEWEST_VERSION: u8 = 3;

/// The greatest number of slots of a volume.
pub const MAX_SLOTS: u32 = 16_777_216;

/// The greatest number of lists of a volume.
pub const MAX_LISTS: u16 = 4_096;

/// The greatest number of cells of a device, 32 GiB of them.
pub const MAX_CELLS: u32 = 2_147_483_648;

/// How many slots, lists and cells a volume has, and its version. There is one only where the limits hold and the
/// pool begins on the device. Contracts see the four numbers.
#[derive(Clone, Copy, Debug, PartialEq, Eq)]
pub struct Geometry {
    slots: u32,
    lists: u16,
    cells: u32,
    version: u8,
}

impl Model for Geometry {
    ghost use Rattle.cell_types.specs.Layout.{Layout, IsLayout};

    ghost Value = { Layout };

    ghost view = { λ g. record { slots = g.slots; lists = g.lists; cells = g.cells; version = g.version } };

    ghost invariant = { λ g. IsLayout (record { slots = g.slots; lists = g.lists; cells = g.cells; version = g.version }) };

    ghost inverse = { λ v. record { slots = v.slots; lists = v.lists; cells = v.cells; version = v.version } };
}

impl Geometry {
    /// The geometry of so many slots, lists and cells, or `None` where a limit is passed or the pool
    /// would begin behind the device's end.
    pub fn new(slots: u32, lists: u16, cells: u32, version: u8) -> Option<Geometry>
        requires some { FIRST_VERSION ≤ version }
        requires most { version ≤ NEWEST_VERSION }
        ensures exists { IsSome result
            ↔ IsLayout (record { slots = slots; lists = lists; cells = cells; version = version }) }
        ensures same { IfSome result (λ g. g
            ≡ record { slots = slots; lists = lists; cells = cells; version = version }) }
    {
        if slots == 0 || slots > MAX_SLOTS || lists == 0 || lists > MAX_LISTS || cells > MAX_CELLS {
            return None;
        }
        if pool_of(slots, lists, version) > cells {
            return None;
        }
        Some(Geometry {
            slots,
            lists,
            cells,
            version,
        })
    }

    /// How many slots the volume has.
    pub fn slots(&self) -> u32
        ensures slots { result ≡ self.now.slots }
        ensures exists { IsLayout self.now }
    {
        self.slots
    }

    /// How many lists the volume has.
    pub fn lists(&self) -> u16
        ensures lists { result ≡ self.now.lists }
        ensures exists { IsLayout self.now }
    {
        self.lists
    }

    /// How many cells the device has.
    pub fn cells(&self) -> u32
        ensures cells { result ≡ self.now.cells }
        ensures exists { IsLayout self.now }
    {
        self.cells
    }

    /// The version of the volume.
    pub fn version(&self) -> u8
        ensures version { result ≡ self.now.version }
        ensures exists { IsLayout self.now }
    {
        self.version
    }

    /// Whether each document of the volume has a stamp.
    pub fn is_stamped(&self) -> bool
        ensures stamped { IsTrue result ↔ TakesStamps self.now }
        ensures exists { IsLayout self.now }
    {
        self.version == STAMPED_VERSION
    }

    /// The reserve cell of a slot.
    pub fn reserve_at(&self, n: u32) -> u32
        requires { n < self.now.slots }
        ensures at { result ≡ layout.reserve_at n }
        ensures inside { result < self.now.cells }
    {
        prove!(n < self.slots);
        4 + 4 * n
    }

    /// The outcome cell of a slot.
    pub fn outcome_at(&self, n: u32) -> u32
        requires { n < self.now.slots }
        ensures at { result ≡ layout.outcome_at n }
        ensures inside { result < self.now.cells }
    {
        prove!(n < self.slots);
        5 + 4 * n
    }

    /// The done cell of a slot.
    pub fn done_at(&self, n: u32) -> u32
        requires { n < self.now.slots }
        ensures at { result ≡ layout.done_at n }
        ensures inside { result < self.now.cells }
    {
        prove!(n < self.slots);
        6 + 4 * n
    }

    /// The spare cell of a slot.
    pub fn spare_at(&self, n: u32) -> u32
        requires { n < self.now.slots }
        ensures at { result ≡ layout.spare_at n }
        ensures inside { result < self.now.cells }
    {
        prove!(n < self.slots);
        7 + 4 * n
    }

    /// The first cell of the lists.
    pub fn lists_at(&self) -> u32
        ensures at { result ≡ layout.lists_at self.now }
        ensures inside { result + 256 ≤ self.now.cells }
    {
        4 + 4 * self.slots
    }

    /// The first cell of the first block of a list. The time list, where there is one, is the last.
    pub fn list_at(&self, l: u16) -> u32
        requires { l < layout.all_lists self.now }
        ensures at { result ≡ layout.list_at self.now l }
        ensures inside { result + 256 ≤ self.now.cells }
    {
        let at = 4 + 4 * self.slots + 256 * u32::from(l);
        if l < self.lists {
            return at;
        }
        at + 32
    }

    /// The first cell of the root node.
    pub fn root_at(&self) -> u32
        ensures at { result ≡ layout.root_at self.now }
        ensures inside { result + 32 ≤ self.now.cells }
    {
        4 + 4 * self.slots + 256 * u32::from(self.lists)
    }

    /// The first cell of the first block of the time list.
    pub fn time_at(&self) -> u32
        requires { TakesStamps self.now }
        ensures at { result ≡ layout.list_at self.now self.now.lists }
        ensures inside { result + 256 ≤ self.now.cells }
    {
        36 + 4 * self.slots + 256 * u32::from(self.lists)
    }

    /// The first cell of the pool, or the number of cells where the pool has none.
    pub fn pool_at(&self) -> u32
        ensures at { result ≡ layout.pool_at self.now }
        ensures inside { result ≤ self.now.cells }
    {
        pool_of(self.slots, self.lists, self.version)
    }
}

/// Where the pool begins.
fn pool_of(slots: u32, lists: u16, version: u8) -> u32
    requires slots { slots ≤ MAX_SLOTS }
    requires lists { lists ≤ MAX_LISTS }
    requires version { version ≤ NEWEST_VERSION }
    ensures { result ≡ 36 + 4 * slots + 256 * (lists + min 1 (version - FOLDED_VERSION)) }
{
    let words = 36 + 4 * slots + 256 * u32::from(lists);
    if version == STAMPED_VERSION {
        return words + 256;
    }
    words
}

/// What a volume cell states: the version of the format, and the geometry.
#[derive(Clone, Copy, Debug, PartialEq, Eq)]
pub struct Volume {
    pub version: u8,
    pub geometry: Geometry,
}

/// A law: no cell lies in two parts of a volume.
pub fn parts_are_apart()
    ensures { PartsAreApart }
{}

/// A law: each cell of the device lies in a part of the volume, and each part on the device.
pub fn parts_cover_the_device()
    ensures { PartsCoverTheDevice }
{}
