//! Whether the stamp of a document is past those of the volume.
ghost use Rattle.std.specs.Prelude.{◌≡◌, ◌<◌, ◌≤◌, ◌+◌, ◌*◌, ◌⊎◌, ◌<ℤ◌, Some, length, pos};
ghost use Rattle.worm_device.specs.Views.{ViewState};
ghost use Rattle.commit_record.specs.SlotBytes.{ReadsSlotBytes};
ghost use Rattle.commit_record.specs.SlotCells.{ReadsSlots};
ghost use Rattle.recovery_engine.specs.Settling.{LiesInBounds};
ghost use Rattle.ingest_engine.specs.Indexing.{LooksPast, ReadsOnDevice};
ghost use Rattle.ingest_engine.specs.Stamps.{AddsStamps, IsStampUpTo, PastLast, ReadsStamps, stamp_of_number};
ghost use Rattle.ingest_engine.specs.declared.stamps.TheConstants.{ROW_SLOTS};

use cell_types::{Cell, Fault, Geometry, Refusal, Volume};
use commit_record::{SLOT_BYTES, SlotState, cells_of_slot, done_stamp, slot_of_row, stamp_of_row};
use recovery_engine::Ready;
use worm_device::{Device, Direct, View};

/// How many slots are read at once, at most.
const ROW_SLOTS: u32 = 1_024;

/// How many bytes their cells have.
const ROW_BYTES: usize = 65_536;

/// That the stamp, if one is given, is past that of each done slot below the horizon. The slots are read from the
/// greatest down, where a stamp is given alone.
///
/// # Errors
///
/// `StampTooEarly` with the greatest stamp of a done slot; `Tampered` where the cells of a slot are no state;
/// `DeviceFault`.
pub fn check_later<D: Device>(
    device: &mut D,
    ready: &Ready,
    stamp: Option<u32>,
) -> Result<(), Refusal>
    requires bounds { LiesInBounds (D.state device.old) ready.now }
    ensures { LooksPast ready.now stamp (D.state device.old) (D.state device.new) result }
{
    let Some(given) = stamp else {
        return Ok(());
    };
    let last = last_stamp(device, ready)?;
    past_last(given, last)
}

/// The greatest stamp of a done slot below the horizon, if there is one.
#[tactic(auto, using(crate::proofs::ReadStamps::device_reads))]
fn last_stamp<D: Device>(device: &mut D, ready: &Ready) -> Result<Option<u32>, Fault>
    requires bounds { LiesInBounds (D.state device.old) ready.now }
    ensures { ReadsOnDevice ready.now (D.state device.old) (D.state device.new) result }
{
    greatest_stamp(&mut Direct::new(device), &ready.volume, ready.horizon)
}

/// The greatest stamp of a done slot below this one, if there is one. The slots are read from the greatest down, so
/// many at once as a row has room for.
fn greatest_stamp<V: View>(view: &mut V, volume: &Volume, below: u32) -> Result<Option<u32>, Fault>
    requires below { below ≤ volume.now.geometry.slots }
    requires size { volume.now.geometry.cells ≤ (V.seen view.old).cells }
    ensures { ReadsStamps volume.now.geometry below (V.seen view.old) (V.seen view.new) result }
{
    let mut greatest = None;
    let mut left = below;
    // All rows are read into one place, which is made blank once alone.
    let mut room = [0; ROW_BYTES];
    while left > 0 {
        let count = left.min(ROW_SLOTS);
        let first = left - count;
        greatest = with_slots(view, &volume.geometry, first, count, &mut room, greatest)?;
        left -= count;
    }
    Ok(greatest)
}

/// The latest of a stamp and those of the done slots among so many, from the first on. The bytes of their cells are
/// read by one call, into the room that is there for them.
fn with_slots<V: View>(
    view: &mut V,
    geometry: &Geometry,
    first: u32,
    count: u32,
    room: &mut [u8; ROW_BYTES],
    greatest: Option<u32>,
) -> Result<Option<u32>, Fault>
    requires some { 1 ≤ count }
    requires few { count ≤ ROW_SLOTS }
    requires slots { first + count ≤ geometry.now.slots }
    requires size { geometry.now.cells ≤ (V.seen view.old).cells }
    ensures { AddsStamps geometry.now first (first + count) greatest (V.seen view.old) (V.seen view.new) result }
{
    // Known of a layout once it is asked for: that the numbers of its slots have 32 bits, and that the last of these
    // cells is one of the device, too.
    let _slots = geometry.slots();
    let _last = geometry.spare_at(first + count - 1);
    let row = &mut room[..SLOT_BYTES * count as usize];
    view.read_bytes(geometry.reserve_at(first), row)?;
    latest_in_row(geometry, first, count, row, greatest)
}

/// The latest of a stamp and those of the done slots of a row that was read, which begins with the cells of the first.
fn latest_in_row(
    geometry: &Geometry,
    first: u32,
    count: u32,
    row: &[u8],
    greatest: Option<u32>,
) -> Result<Option<u32>, Fault>
    requires few { count ≤ ROW_SLOTS }
    requires slots { first + count ≤ geometry.now.slots }
    requires bytes { length row.now ≡ 64 * count }
    ensures { (old new : ViewState) → ReadsSlotBytes first row.now old new
        → AddsStamps geometry.now first (first + count) greatest old new result }
{
    // Known of a layout once it is asked for.
    let _slots = geometry.slots();
    let pool_at = geometry.pool_at();
    let mut last = as_number(greatest);
    let mut left = count as usize;
    while left > 0 {
        left -= 1;
        let slot = first + left as u32;
        let bytes = &row[SLOT_BYTES * left..];
        // Most slots are done, so that is asked first. The cells of another are made here, as a call that takes its
        // bytes costs each slot two instructions, called or not.
        if let Some(stamp) = done_stamp(geometry, pool_at, slot, bytes) {
            last = later_number(last, stamp);
            continue;
        }
        last = as_number(with_cells(geometry, slot, &cells_of_slot(bytes), as_stamp(last))?);
    }
    Ok(as_stamp(last))
}

/// The later one of a stamp and that of a slot, if the slot is done, by what its cells hold, the first of a row.
#[cold]
fn with_cells(
    geometry: &Geometry,
    slot: u32,
    row: &[Option<Cell>],
    greatest: Option<u32>,
) -> Result<Option<u32>, Fault>
    requires slot { slot < geometry.now.slots }
    requires four { 4 ≤ length row.now }
    ensures { (old new : ViewState) → ReadsSlots slot row.now old new
        → AddsStamps geometry.now slot (slot + 1) greatest old new result }
{
    let SlotState::Done { .. } = slot_of_row(geometry, slot, row)? else {
        return Ok(greatest);
    };
    let stamp = stamp_of_row(geometry, slot, row);
    Ok(later_of(greatest, stamp))
}

/// A stamp as a number that is below each stamp's where there is none. Two of them are compared by one look.
fn as_number(stamp: Option<u32>) -> i64
    ensures same { stamp_of_number result ≡ stamp }
    ensures small { result <ℤ pos 4294967296 }
{
    let Some(seconds) = stamp else {
        return -1;
    };
    i64::from(seconds)
}

/// The stamp that such a number is of, if it is of one.
fn as_stamp(number: i64) -> Option<u32>
    requires { number <ℤ pos 4294967296 }
    ensures { result ≡ stamp_of_number number }
{
    let Ok(seconds) = u32::try_from(number) else {
        return None;
    };
    Some(seconds)
}

/// The number of the later one of two stamps.
fn later_number(number: i64, stamp: u32) -> i64
    requires { number <ℤ pos 4294967296 }
    ensures small { result <ℤ pos 4294967296 }
    ensures first { IsStampUpTo (stamp_of_number number) (stamp_of_number result) }
    ensures second { IsStampUpTo (Some stamp) (stamp_of_number result) }
    ensures either { (stamp_of_number result ≡ stamp_of_number number)
        ⊎ (stamp_of_number result ≡ Some stamp) }
{
    number.max(i64::from(stamp))
}

/// The later one of two stamps.
fn later_of(one: Option<u32>, other: Option<u32>) -> Option<u32>
    ensures first { IsStampUpTo one result }
    ensures second { IsStampUpTo other result }
    ensures either { (result ≡ one) ⊎ (result ≡ other) }
{
    let Some(first) = one else {
        return other;
    };
    let Some(second) = other else {
        return one;
    };
    Some(first.max(second))
}

/// That a stamp is past the last one.
fn past_last(given: u32, last: Option<u32>) -> Result<(), Refusal>
    ensures { PastLast given last result }
{
    let Some(last) = last else {
        return Ok(());
    };
    if given <= last {
        return Err(Refusal::StampTooEarly { given, last });
    }
    Ok(())
}
