//! Devices of any kind, and planned cells over a view.
ghost use Rattle.std.specs.Prelude.{◌≡◌, ◌<◌, ◌≤◌, ◌+◌, ◌/◌, ◌%◌, length};
ghost use Rattle.worm_device.specs.Overlays.{of_overlay};
ghost use Rattle.worm_device.specs.ReadBytes.{ReadsBytes};
ghost use Rattle.worm_device.specs.Rows.{WritesRow};
ghost use Rattle.worm_device.specs.Views.{ViewReads};

use cell_types::Cell;
use worm_device::{Device, Failed, Overlay, RowWritten, View};

/// `Device::read_bytes`.
pub fn read_bytes_again<D: Device>(device: &mut D, at: u32, bytes: &mut [u8]) -> Result<(), Failed>
    requires whole { length bytes.old % 16 ≡ 0 }
    requires inside { at + length bytes.old / 16 ≤ (D.state device.old).cells }
    ensures { ReadsBytes at bytes.old bytes.new (D.state device.old) (D.state device.new) result }
{
    device.read_bytes(at, bytes)
}

/// `Device::write_row`.
pub fn write_row_again<D: Device>(
    device: &mut D,
    at: u32,
    values: &[Cell],
) -> Result<RowWritten, Failed>
    requires { at + length values.now ≤ (D.state device.old).cells }
    ensures { WritesRow at values.now (D.state device.old) (D.state device.new) result }
{
    device.write_row(at, values)
}

/// `View::read` of an overlay.
pub fn read_planned_again<'a, V: View>(
    overlay: &mut Overlay<'a, V>,
    at: u32,
) -> Result<Option<Cell>, Failed>
    requires { at < (of_overlay V.seen overlay.old).cells }
    ensures { ViewReads at (of_overlay V.seen overlay.old) (of_overlay V.seen overlay.new) result }
{
    overlay.read(at)
}
