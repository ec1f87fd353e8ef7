//! A device as a view.
ghost use Rattle.std.specs.Prelude.{◌≡◌, ◌<◌};
ghost use Rattle.worm_device.specs.Counts.{next_count};
ghost use Rattle.worm_device.specs.Views.{ViewReads, seen_directly};

use crate::{Device, Failed, View};
use cell_types::Cell;

/// The view that shows what stands on a device.
#[derive(Drop)]
pub struct Direct<'a, D> {
    pub device: &'a mut D,
}

impl<'a, D: Device> Direct<'a, D> {
    /// The view of this device, which is lent to it.
    pub fn new(device: &'a mut D) -> Direct<'a, D>
        ensures same_loan { result.device.ghost_name ≡ device.entry.ghost_name }
        ensures same { result.device.now ≡ device.old }
    {
        Direct { device }
    }
}

impl<'a, D: Device> View for Direct<'a, D> {
    ghost use Rattle.worm_device.specs.Views.{seen_directly};
    ghost use Rattle.worm_device.specs.Directly.{device_is_view};

    ghost seen = { λ v. seen_directly (D.state v.device.now) v.device.ghost_name };

    ghost proper = { λ v. device_is_view (D.state v.device.now) v.device.ghost_name (D.proper v.device.now) };

    fn cells(&self) -> u32 {
        self.device.cells()
    }

    /// What stands in the cell. It counts as one read of the device, neither more nor fewer.
    fn read(&mut self, at: u32) -> Result<Option<Cell>, Failed>
        requires { at < (D.state self.old.device.now).cells }
        ensures reads { ViewReads at (seen_directly (D.state self.old.device.now) self.old.device.ghost_name)
            (seen_directly (D.state self.new.device.now) self.new.device.ghost_name) result }
        ensures counted { (D.state self.new.device.now).reads ≡ next_count (D.state self.old.device.now).reads }
    {
        self.device.read(at)
    }

    fn read_row(&mut self, at: u32, cells: &mut [Option<Cell>]) -> Result<(), Failed> {
        self.device.read_row(at, cells)
    }

    fn read_bytes(&mut self, at: u32, bytes: &mut [u8]) -> Result<(), Failed> {
        self.device.read_bytes(at, bytes)
    }
}
