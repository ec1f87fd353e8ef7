//! The volume that cell 0 states.
ghost use Rattle.std.specs.Prelude.{◌≡◌, ◌<◌, ◌≤◌, ◌+◌};
ghost use Rattle.worm_device.specs.Views.{Viewed};
ghost use Rattle.commit_record.specs.Opening.{OpenEnds, StatedBy, refusal_of};
ghost use Rattle.commit_record.specs.declared.opening.OpenRefusal.TheVariants as refusals;

use cell_types::{Cell, Geometry, RecordCell, Refusal, Volume, decode};
use worm_device::{Failed, View};

/// Why a volume is not opened.
#[derive(Clone, Copy)]
pub enum OpenRefusal {
    /// Cell 0 is blank.
    NotFormatted,
    /// Cell 0 is written and no volume cell of a version that is supported.
    NotAVolume(Cell),
    /// The volume cell states so many cells, and the view has so many.
    WrongSize { stated: u32, real: u32 },
    /// The read failed.
    ReadFault,
}

impl From<Failed> for OpenRefusal {
    ghost from_gives = { λ _ why. why ≡ refusals.ReadFault };

    fn from(_: Failed) -> OpenRefusal {
        OpenRefusal::ReadFault
    }
}

impl From<OpenRefusal> for Refusal {
    ghost from_gives = { λ why refusal. refusal ≡ refusal_of why };

    fn from(why: OpenRefusal) -> Refusal {
        match why {
            OpenRefusal::NotFormatted => Refusal::NotFormatted,
            OpenRefusal::NotAVolume(found) => Refusal::NotAVolume(found),
            OpenRefusal::WrongSize { stated, real } => Refusal::WrongSize { stated, real },
            OpenRefusal::ReadFault => Refusal::DeviceFault,
        }
    }
}

/// The volume that is stated by what was found in cell 0 of so many cells.
pub fn volume_of(found: Option<Cell>, cells: u32) -> Result<Volume, OpenRefusal>
    ensures { StatedBy found cells result }
{
    let Some(cell) = found else {
        return Err(OpenRefusal::NotFormatted);
    };
    let Some(held) = decode(cell, 0) else {
        return Err(OpenRefusal::NotAVolume(cell));
    };
    let RecordCell::Volume {
        version,
        slots,
        lists,
        cells: stated,
    } = held
    else {
        return Err(OpenRefusal::NotAVolume(cell));
    };
    if stated != cells {
        return Err(OpenRefusal::WrongSize {
            stated,
            real: cells,
        });
    }
    let geometry = Geometry::new(slots, lists, cells, version).unwrap();
    Ok(Volume { version, geometry })
}

/// The volume that cell 0 states, where it states the view's number of cells. Makes one read.
pub fn open<V: View>(view: &mut V) -> Result<Volume, OpenRefusal>
    requires { 0 < (V.seen view.old).cells }
    ensures viewed { Viewed (V.seen view.old) (V.seen view.new) }
    ensures reads { (V.seen view.new).base.reads ≤ (V.seen view.old).base.reads + 1 }
    ensures ends { OpenEnds (V.seen view.old) (V.seen view.new) result }
{
    let found = view.read(0)?;
    volume_of(found, view.cells())
}
