//! Where the log ends.
ghost use Rattle.std.specs.Prelude.{◌≡◌, ◌<◌, ◌≤◌, ◌+◌};
ghost use Rattle.worm_device.specs.Views.{Viewed};
ghost use Rattle.commit_record.specs.LogEnds.{HorizonEnds, LogEndEnds};

use cell_types::{Cell, Volume};
use worm_device::{Failed, View};

/// Where the log ends, and the last reserve cell before.
#[derive(Clone, Copy)]
pub struct LogEnd {
    /// A slot whose reserve cell is blank, behind one whose reserve cell is written or with none before it; or the
    /// number of slots, where the last slot's is written.
    pub horizon: u32,
    /// The reserve cell of the slot before, and `None` where the horizon is 0.
    pub last: Option<Cell>,
}

/// A horizon, and the reserve cell of the slot before. It is found by bisection, with 26 reads at most: on a volume
/// whose slots are taken in a row from slot 0 on there is one horizon, and on any other this is one of them.
pub fn end_of_log<V: View>(view: &mut V, volume: &Volume) -> Result<LogEnd, Failed>
    requires { volume.now.geometry.cells ≤ (V.seen view.old).cells }
    ensures viewed { Viewed (V.seen view.old) (V.seen view.new) }
    ensures reads { (V.seen view.new).base.reads ≤ (V.seen view.old).base.reads + 26 }
    ensures ends { LogEndEnds volume.now.geometry (V.seen view.old) (V.seen view.new) result }
{
    let geometry = volume.geometry;
    let slots = geometry.slots();
    let mut high = slots - 1;
    // A full log is told from this slot alone, whatever stands before it.
    if let Some(taken) = view.read(geometry.reserve_at(high))? {
        return Ok(LogEnd {
            horizon: slots,
            last: Some(taken),
        });
    }
    // No slot is before low, or the one before it is taken; and the slot high is free.
    let mut low = 0;
    let mut last = None;
    // 2^24 slots are one after 24 halvings.
    for _halving in 0u8..24 {
        if low >= high {
            return Ok(LogEnd {
                horizon: high,
                last,
            });
        }
        let middle = low + (high - low) / 2;
        let Some(taken) = view.read(geometry.reserve_at(middle))? else {
            high = middle;
            continue;
        };
        low = middle + 1;
        last = Some(taken);
    }
    Ok(LogEnd {
        horizon: high,
        last,
    })
}

/// A horizon, as `end_of_log` finds it, with 26 reads at most.
pub fn horizon<V: View>(view: &mut V, volume: &Volume) -> Result<u32, Failed>
    requires { volume.now.geometry.cells ≤ (V.seen view.old).cells }
    ensures viewed { Viewed (V.seen view.old) (V.seen view.new) }
    ensures reads { (V.seen view.new).base.reads ≤ (V.seen view.old).base.reads + 26 }
    ensures ends { HorizonEnds volume.now.geometry (V.seen view.old) (V.seen view.new) result }
{
    Ok(end_of_log(view, volume)?.horizon)
}
