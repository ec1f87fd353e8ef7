//! The cells that are kept, the outcome cells among them, and the lower of two findings.
ghost use Rattle.std.specs.Prelude.{◌≡◌, ◌≤◌, ◌+◌};
ghost use Rattle.cell_types.specs.Image.{IsUnchanged};
ghost use Rattle.log_audit.specs.Findings.{FindsBroken};
ghost use Rattle.log_audit.specs.Kept.{KeepEnds, image_of_kept};
ghost use Rattle.log_audit.specs.Least.{lower_finding};
ghost use Rattle.tamper_rules.specs.Rules.{OutcomeCells};
ghost use Rattle.worm_device.specs.Calls.{Called};
ghost use Rattle.worm_device.specs.Counts.{IsStill};

use cell_types::{Evidence, Geometry, Refusal};
use log_audit::{KeptCells, first_broken_outcome, keep_cells, lower_of};
use std::alloc::Global;
use worm_device::Device;

/// `keep_cells`.
pub fn keep_cells_again<D: Device>(alloc: Global, device: &mut D) -> Result<KeptCells, Refusal>
    ensures called { Called (D.state device.old) (D.state device.new) }
    ensures reads { (D.state device.new).reads ≤ (D.state device.old).reads + (D.state device.old).cells }
    ensures quiet { IsStill (D.state device.old).foreign_writes (D.state device.new).foreign_writes
        → IsUnchanged (D.state device.old).image (D.state device.new).image }
    ensures ends { KeepEnds (D.state device.old) (D.state device.new) result }
{
    keep_cells(alloc, device)
}

/// `first_broken_outcome`.
pub fn broken_outcome_again(kept: &KeptCells, geometry: &Geometry) -> Option<Evidence>
    ensures { FindsBroken geometry.now (image_of_kept kept.now) OutcomeCells result }
{
    first_broken_outcome(kept, geometry)
}

/// `lower_of`.
pub fn lower_of_again(one: Option<Evidence>, other: Option<Evidence>) -> Option<Evidence>
    ensures { result ≡ lower_finding one other }
{
    lower_of(one, other)
}
