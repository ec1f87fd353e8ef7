//! The command `format`.
ghost use Rattle.std.specs.Prelude.{◌≤◌};
ghost use Rattle.cell_types.specs.declared.geometry.TheConstants.{FIRST_VERSION, NEWEST_VERSION};
ghost use Rattle.volume_commands.specs.Formatting.{DoesFormat};
ghost use Rattle.volume_commands.specs.Ports.{ports_of};

use crate::outcome::Outcome;
use command_line::put_text;
use host_ports::{Sink, Source};
use ingest_engine::format_volume;
use worm_device::Device;

/// Makes the device a volume of so many slots and lists, and of this version, and says so.
pub fn format_device<D: Device, S: Source, K: Sink>(
    slots: u32,
    lists: u16,
    version: u8,
    device: &mut D,
    source: &mut S,
    sink: &mut K,
) -> Outcome
    requires from { FIRST_VERSION ≤ version }
    requires to { version ≤ NEWEST_VERSION }
    ensures { DoesFormat (record { slots = slots; lists = lists; cells = (D.state device.old).cells; version = version })
        (ports_of (D.state device.old) (S.state source.old) (K.state sink.old))
        (ports_of (D.state device.new) (S.state source.new) (K.state sink.new)) result }
{
    format_volume(device, slots, lists, version)?;
    put_text(sink, b"formatted\n")?;
    Ok(())
}
