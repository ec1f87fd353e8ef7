//! Generic callers that need no proof: what the words of the contracts are for.
ghost use Rattle.std.specs.Prelude.{◌≡◌, ◌≢◌, ◌<◌, ◌≤◌, ◌+◌, ◌⊎◌, ℕ, None, Some, IsErr, IsNone, IsTrue, IfOk, IfSome, IfNone};
ghost use Rattle.cell_types.specs.Image.{Extends};
ghost use Rattle.worm_device.specs.Calls.{Called};
ghost use Rattle.worm_device.specs.Counts.{Rose, IsStill};
ghost use Rattle.worm_device.specs.Views.{Viewed, ViewState};

use cell_types::Cell;
use worm_device::{Device, Direct, Failed, Overlay, PlannedCells, View, Written};

/// Writes two cells and syncs. Answers whether both were blank.
fn write_two<D: Device>(device: &mut D, first: Cell, second: Cell) -> Result<bool, Failed>
    requires { 2 < (D.state device.old).cells }
    ensures called { Called (D.state device.old) (D.state device.new) }
    ensures stays { Extends (D.state device.old).image (D.state device.new).image }
    ensures cause { IsErr result → Rose (D.state device.old).faults (D.state device.new).faults }
    ensures sure { IsTrue (D.state device.old).tells → IfOk result (λ both. IsTrue both →
        ((D.state device.new).sure 1 ≡ Some first) × ((D.state device.new).sure 2 ≡ Some second)) }
{
    let one = device.write(1, first)?;
    let two = device.write(2, second)?;
    device.sync()?;
    Ok(one == Written::Done && two == Written::Done)
}

/// The first written one of cells 0 and 1.
fn first_written<V: View>(view: &mut V) -> Result<Option<Cell>, Failed>
    requires { 2 < (V.seen view.old).cells }
    ensures viewed { Viewed (V.seen view.old) (V.seen view.new) }
    ensures cause { IsErr result → Rose (V.seen view.old).base.faults (V.seen view.new).base.faults }
    ensures found { IsTrue (V.seen view.old).base.tells → IfOk result (λ r. IfSome r (λ v.
        ((V.seen view.new).image 0 ≡ Some v) ⊎ ((V.seen view.new).image 1 ≡ Some v))) }
{
    if let Some(cell) = view.read(0)? {
        return Ok(Some(cell));
    }
    view.read(1)
}

/// Looks through a view, and then writes.
fn look_then_write<D: Device>(device: &mut D, value: Cell) -> Result<Option<Cell>, Failed>
    requires { 2 < (D.state device.old).cells }
    ensures called { Called (D.state device.old) (D.state device.new) }
    ensures cause { IsErr result → Rose (D.state device.old).faults (D.state device.new).faults }
    ensures found { IsTrue (D.state device.old).tells → IfOk result (λ r. IfSome r (λ v.
        ((D.state device.new).image 0 ≡ Some v) ⊎ ((D.state device.new).image 1 ≡ Some v))) }
{
    let found = first_written(&mut Direct::new(device))?;
    device.write(2, value)?;
    Ok(found)
}

/// Whether sixteen neighbouring cells are blank.
fn row_is_blank<V: View>(view: &mut V, at: u32) -> Result<bool, Failed>
    requires { at + 16 ≤ (V.seen view.old).cells }
    ensures viewed { Viewed (V.seen view.old) (V.seen view.new) }
    ensures cause { IsErr result → Rose (V.seen view.old).base.faults (V.seen view.new).base.faults }
{
    let mut found = [None; 16];
    view.read_row(at, &mut found)?;
    Ok(found.iter().all(|cell| cell.is_none()))
}

/// Nothing is asked of the device.
fn do_nothing<D: Device>(device: &mut D)
    ensures called { Called (D.state device.old) (D.state device.new) }
    ensures proper { Extends (D.state device.old).sure (D.state device.old).image }
{
    let _ = device;
}

/// A view that holds another by value, and counts what it is asked for: how a cache, or a list of postings,
/// will stand over a view.
#[derive(Drop)]
struct Counted<V> {
    view: V,
    asked: u32,
}

impl<V> Counted<V> {
    ghost use Rattle.device_tests.specs.declared.device_callers.Counted.{Counted};

    fn new(view: V) -> Counted<V>
        ensures { result ≡ record { view = view; asked = 0 } }
    {
        Counted { view, asked: 0 }
    }
}

impl<V: View> View for Counted<V> {
    ghost seen = { λ held. V.seen held.view };

    ghost proper = { λ held. V.proper held.view };

    fn cells(&self) -> u32 {
        self.view.cells()
    }

    fn read(&mut self, at: u32) -> Result<Option<Cell>, Failed> {
        self.asked = self.asked.saturating_add(1);
        self.view.read(at)
    }
}

/// Looks through a holder of a view of the device, and then writes to the device.
fn look_through_a_holder<D: Device>(device: &mut D, value: Cell) -> Result<Option<Cell>, Failed>
    requires { 2 < (D.state device.old).cells }
    ensures called { Called (D.state device.old) (D.state device.new) }
    ensures cause { IsErr result → Rose (D.state device.old).faults (D.state device.new).faults }
    ensures found { IsTrue (D.state device.old).tells → IfOk result (λ r. IfSome r (λ v.
        ((D.state device.new).image 0 ≡ Some v) ⊎ ((D.state device.new).image 1 ≡ Some v))) }
{
    let mut view = Counted::new(Direct::new(device));
    let found = first_written(&mut view)?;
    device.write(2, value)?;
    Ok(found)
}

/// Looks at a device through planned cells, and then writes to it: the device comes back from below them.
fn look_over<D: Device>(
    device: &mut D,
    own: &mut PlannedCells,
    value: Cell,
) -> Result<Option<Cell>, Failed>
    requires { 2 < (D.state device.old).cells }
    ensures called { Called (D.state device.old) (D.state device.new) }
{
    let fresh = device.cells();
    let mut overlay = Overlay::new(Direct::new(device), own, fresh);
    let found = first_written(&mut overlay)?;
    device.write(2, value)?;
    Ok(found)
}
