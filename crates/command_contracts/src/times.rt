//! Documents of a span of time.
ghost use Rattle.std.specs.Prelude.{◌≤◌};
ghost use Rattle.time_index.specs.Spans.{FindsBetween};

use cell_types::Refusal;
use std::alloc::Global;
use time_index::{TimeMatch, between};
use worm_device::Device;

/// `between`.
pub fn between_again<D: Device>(
    alloc: Global,
    device: &mut D,
    from: u32,
    to: u32,
) -> Result<Vec<TimeMatch>, Refusal>
    requires { from ≤ to }
    ensures { FindsBetween from to (D.state device.old) (D.state device.new) result }
{
    between(alloc, device, from, to)
}
