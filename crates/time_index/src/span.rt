//! All documents of a span of time.
ghost use Rattle.std.specs.Prelude.{◌≡◌, ◌≤◌};
ghost use Rattle.cell_types.specs.Layout.{TakesStamps};
ghost use Rattle.record_query.specs.Reaching as reaching;
ghost use Rattle.time_index.specs.Gathering.{GathersTimes, GathersOnDevice, IsBehind};
ghost use Rattle.time_index.specs.Spans.{FindsBetween, SearchesTimes};

use crate::found::TimeMatch;
use crate::matching::{Stamped, match_of};
use crate::postings::next_posting;
use crate::stamped::check_stamps;
use cell_types::{Refusal, memory};
use jump_index::{Bounds, KeptSearch};
use posting_list::Reach;
use recovery_engine::{Ready, settle};
use std::alloc::Global;
use worm_device::{Device, Direct, View};

/// What a search reads at most on a settled volume, besides what its matches ask for.
pub const SPAN_READS: u64 = 256;

/// What it reads at most for each match, and one more: two searches of the time list, and the slot's cells.
pub const TURN_READS: u64 = 8_224;

/// What it reads at most for each cell of the document of a match.
pub const CELL_READS: u64 = 4;

/// Settles the volume, and answers each document whose stamp lies from `from` to `to`, in seconds, both included, by rising
/// slot. The time list says which documents are read: each cell of these is read once.
///
/// # Errors
///
/// `NotFormatted`, `NotAVolume` and `WrongSize` by cell 0; `NoStamps` where the volume's documents are not stamped, and
/// nothing is written then; `Tampered` where a cell breaks a rule of the log (1, 2, 3, 5 and 6), stamps do not rise with
/// their slots (7), a cell of the time list breaks a rule (8, 9 and 10), or a document is broken (4); `DeviceFault`;
/// `NoMemory`.
pub fn between<D: Device>(
    alloc: Global,
    device: &mut D,
    from: u32,
    to: u32,
) -> Result<Vec<TimeMatch>, Refusal>
    requires { from ≤ to }
    ensures { FindsBetween from to (D.state device.old) (D.state device.new) result }
{
    check_stamps(device)?;
    search(alloc, device, from, to)
}

/// The same of a volume of stamped documents.
fn search<D: Device>(
    alloc: Global,
    device: &mut D,
    from: u32,
    to: u32,
) -> Result<Vec<TimeMatch>, Refusal>
    requires { from ≤ to }
    ensures { SearchesTimes from to (D.state device.old) (D.state device.new) result }
{
    let ready = settle(device)?;
    if !ready.volume.geometry.is_stamped() {
        // A device that tells its image has the volume that cell 0 stated before.
        return Err(Refusal::NoStamps);
    }
    gather_on_device(alloc, device, &ready, from, to)
}

/// Gathers them on the device, by the time list of a settled volume.
fn gather_on_device<D: Device>(
    alloc: Global,
    device: &mut D,
    ready: &Ready,
    from: u32,
    to: u32,
) -> Result<Vec<TimeMatch>, Refusal>
    requires order { from ≤ to }
    requires size { ready.now.volume.geometry.cells ≡ (D.state device.old).cells }
    requires stamped { TakesStamps ready.now.volume.geometry }
    ensures { GathersOnDevice ready.now from to (D.state device.old) (D.state device.new) result }
{
    gather(alloc, &mut Direct::new(device), &reach_of(ready), from, to)
}

/// What of a settled volume its lists reach.
fn reach_of(ready: &Ready) -> Reach
    ensures { result ≡ reaching.reach_of ready.now }
{
    Reach {
        volume: ready.volume,
        horizon: ready.horizon,
        bounds: Bounds {
            pool: ready.volume.geometry.pool_at(),
            edge: ready.edge,
        },
    }
}

/// The same over any view.
fn gather<V: View>(
    alloc: Global,
    view: &mut V,
    reach: &Reach,
    from: u32,
    to: u32,
) -> Result<Vec<TimeMatch>, Refusal>
    requires order { from ≤ to }
    requires size { reach.now.volume.geometry.cells ≡ (V.seen view.old).cells }
    requires stamped { TakesStamps reach.now.volume.geometry }
    ensures { GathersTimes reach.now from to (V.seen view.old) (V.seen view.new) result }
{
    let mut kept = KeptSearch::new();
    let mut matches = Vec::new(alloc);
    let mut last = None;
    let mut next = Some(from);
    while let Some(key) = next {
        let Some(entry) = next_posting(view, &mut kept, reach, key, to)? else {
            return Ok(matches);
        };
        let found = match_of(alloc, view, reach, &entry, last)?;
        last = Some(Stamped {
            slot: found.slot,
            seconds: found.seconds,
        });
        memory::push(&mut matches, found)?;
        next = behind(entry.key, to);
    }
    Ok(matches)
}

/// The stamp from which to go on behind one of the span.
fn behind(seconds: u32, to: u32) -> Option<u32>
    ensures { IsBehind seconds to result }
{
    if seconds >= to {
        return None;
    }
    Some(seconds + 1)
}
