//! Callers: one that reads by way of kept cells, and goes on with the device.
ghost use Rattle.std.specs.Prelude.{◌≡◌, ◌<◌, Some, IsTrue, IfOk, IfSome};
ghost use Rattle.worm_device.specs.Calls.{Called};
ghost use Rattle.worm_device.specs.Views.{Viewed};

use cell_types::{Cell, Refusal};
use read_cache::{Cached, CellCache};
use std::alloc::Global;
use worm_device::{Device, Direct, Failed, View};

/// What stands in cell 1, which is asked for twice.
fn read_twice<V: View>(view: &mut V) -> Result<Option<Cell>, Failed>
    requires { 2 < (V.seen view.old).cells }
    ensures viewed { Viewed (V.seen view.old) (V.seen view.new) }
    ensures found { IsTrue (V.seen view.old).base.tells → IfOk result (λ r. r ≡ (V.seen view.new).image 1) }
{
    view.read(1)?;
    view.read(1)
}

/// The same by way of kept cells.
fn read_kept<V: View>(view: &mut V, cache: &mut CellCache) -> Result<Option<Cell>, Failed>
    requires { 2 < (V.seen view.old).cells }
    ensures viewed { Viewed (V.seen view.old) (V.seen view.new) }
    ensures found { IsTrue (V.seen view.old).base.tells → IfOk result (λ r. r ≡ (V.seen view.new).image 1) }
{
    read_twice(&mut Cached::new(view, cache))
}

/// Looks at a device by way of kept cells, and then writes to it.
fn look_then_write<D: Device>(
    alloc: Global,
    device: &mut D,
    value: Cell,
) -> Result<Option<Cell>, Refusal>
    requires { 2 < (D.state device.old).cells }
    ensures called { Called (D.state device.old) (D.state device.new) }
    ensures found { IsTrue (D.state device.old).tells → IfOk result (λ r. IfSome r (λ cell.
        (D.state device.new).image 1 ≡ Some cell)) }
{
    let mut cache = CellCache::new(alloc, 2)?;
    let found = read_kept(&mut Direct::new(device), &mut cache)?;
    device.write(2, value)?;
    Ok(found)
}
