//! A volume, made on a blank device.
ghost use Rattle.std.specs.Prelude.{◌≡◌, ◌<◌, ◌≤◌, IsOk};
ghost use Rattle.cell_types.specs.Image.{ChangesOnly};
ghost use Rattle.cell_types.specs.declared.geometry.TheConstants.{FIRST_VERSION, NEWEST_VERSION};
ghost use Rattle.worm_device.specs.Calls.{Called};
ghost use Rattle.worm_device.specs.Counts.{IsStill, Rose};
ghost use Rattle.worm_device.specs.State.{DeviceState};
ghost use Rattle.ingest_engine.specs.Formats.{VolumeCellEnds, Formats, Looks};

use cell_types::{Cell, Geometry, RecordCell, Refusal, encode};
use worm_device::{Device, Written};

/// Makes the device a volume of so many slots and lists, and of this version: reads every cell, writes cell 0, and
/// syncs. Takes no memory.
pub fn format_volume<D: Device>(
    device: &mut D,
    slots: u32,
    lists: u16,
    version: u8,
) -> Result<(), Refusal>
    requires some { FIRST_VERSION ≤ version }
    requires most { version ≤ NEWEST_VERSION }
    ensures { Formats (record {
      slots = slots;
      lists = lists;
      cells = (D.state device.old).cells;
      version = version;
    }) (D.state device.old) (D.state device.new) result }
{
    let cells = device.cells();
    if Geometry::new(slots, lists, cells, version).is_none() {
        return Err(Refusal::TooSmall);
    }
    let volume = RecordCell::Volume {
        version,
        slots,
        lists,
        cells,
    };
    write_volume_cell(device, encode(volume, 0))
}

/// Makes this the only written cell of a device: reads every cell, writes cell 0, and syncs.
fn write_volume_cell<D: Device>(device: &mut D, value: Cell) -> Result<(), Refusal>
    requires { 0 < (D.state device.old).cells }
    ensures called { Called (D.state device.old) (D.state device.new) }
    ensures unfailed { IsOk result → (D.state device.new).faults ≡ (D.state device.old).faults }
    ensures read { IsOk result → Rose (D.state device.old).reads (D.state device.new).reads }
    ensures only { IsStill (D.state device.old).foreign_writes (D.state device.new).foreign_writes
        → ChangesOnly 0 value (D.state device.old).image (D.state device.new).image }
    ensures ends { VolumeCellEnds value (D.state device.old) (D.state device.new) result }
{
    look_for_written_cells(device)?;
    let written = device.write(0, value)?;
    // Cell 0 was blank a moment ago. Somebody else has written it since, whatever stands there.
    let Written::Done = written else {
        return Err(Refusal::NotBlank(0));
    };
    device.sync()?;
    Ok(())
}

/// Reads every cell, up to the first that is written.
fn look_for_written_cells<D: Device>(device: &mut D) -> Result<(), Refusal>
    ensures { Looks (D.state device.old) (D.state device.new) result }
{
    for at in 0..device.cells() {
        let found = device.read(at)?;
        if found.is_some() {
            return Err(Refusal::NotBlank(at));
        }
    }
    Ok(())
}
