//! Settling.
ghost use Rattle.std.specs.Prelude.{◌≡◌};
ghost use Rattle.recovery_engine.specs.Settling.{Settles, unused};

use crate::ending::{check_slot, end_slot, step_of};
use crate::looks::{last_slot_of_device, log_end_of_device, open_device};
use cell_types::{Refusal, Volume};
use worm_device::Device;

/// What settling did.
#[derive(Clone, Copy, Debug, PartialEq, Eq)]
pub enum Step {
    /// Nothing was half done.
    Nothing,
    /// This slot was given up.
    Abandoned(u32),
    /// This slot is done now.
    Completed(u32),
}

/// A settled volume.
#[derive(Clone, Copy, Debug, PartialEq, Eq)]
pub struct Ready {
    pub volume: Volume,
    /// Where the log ends: a free slot behind one that is taken, or with none before it; or the number of slots, where
    /// the last slot is taken.
    pub horizon: u32,
    /// The first cell of the pool that no slot reserves.
    pub edge: u32,
    pub step: Step,
}

impl Ready {
    /// A volume of which no slot is used.
    fn unused(volume: Volume) -> Ready
        ensures { result ≡ unused volume }
    {
        Ready {
            volume,
            horizon: 0,
            edge: volume.geometry.pool_at(),
            step: Step::Nothing,
        }
    }
}

/// Settles the volume: makes sure what stands, and then gives up the last slot where it is reserved alone, or carries
/// its journal out and puts its done cell where it is committed. Takes no memory. Where there is nothing to put it
/// makes at most 64 reads, however many slots are taken, and whatever it answers.
///
/// # Errors
///
/// `NotFormatted`, `NotAVolume` and `WrongSize` by cell 0; `Tampered` where the last slot or its journal breaks a rule
/// (1, 2, 3, 5 or 6); `DeviceFault`.
pub fn settle<D: Device>(device: &mut D) -> Result<Ready, Refusal>
    ensures { Settles (D.state device.old) (D.state device.new) result }
{
    device.sync()?;
    let volume = open_device(device)?;
    let log = log_end_of_device(device, &volume)?;
    let Some(reserve) = log.last else {
        return Ok(Ready::unused(volume));
    };
    let last = log.horizon - 1;
    let state = last_slot_of_device(device, &volume, last, reserve)?;
    // Its reserve cell is written.
    let Some(cells) = state.reservation() else {
        unreachable!()
    };
    check_slot(device, &volume.geometry, last, &state)?;
    end_slot(device, &volume.geometry, last, &state)?;
    Ok(Ready {
        volume,
        horizon: log.horizon,
        edge: cells.end(),
        step: step_of(last, &state),
    })
}
