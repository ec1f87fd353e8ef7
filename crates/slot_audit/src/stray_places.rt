//! Cells where nothing is expected.
ghost use Rattle.std.specs.Prelude.{◌<◌, ◌↔◌, IsTrue};
ghost use Rattle.tamper_rules.specs.Rules.{ReserveCells, StrayCells};
ghost use Rattle.log_audit.specs.KeptVolumes.{FindsPartIn, HasAllCells, KeepsRule, image_in};
ghost use Rattle.slot_audit.specs.Strays.{AreNamed, IsExpected};

use crate::named::NamedCells;
use cell_types::Evidence;
use log_audit::KeptVolume;
use tamper_rules::STRAY_CELL;

/// The first written cell that is not expected where it stands.
pub(crate) fn first_unexpected(volume: &KeptVolume, named: &NamedCells) -> Option<Evidence>
    requires met { KeepsRule volume.now ReserveCells }
    requires count { HasAllCells volume.now }
    requires named { AreNamed volume.now.geometry (image_in volume.now) named.now }
    ensures { FindsPartIn volume.now StrayCells (IsExpected volume.now.geometry (image_in volume.now)) result }
{
    for place in 0..volume.kept.written() {
        let Some(row) = volume.kept.written_at(place) else {
            return None;
        };
        if !is_expected(volume, named, row.number) {
            return Some(Evidence {
                rule: STRAY_CELL,
                cell: row.number,
                found: row.cell,
            });
        }
    }
    None
}

/// Whether a written cell is expected where it stands.
fn is_expected(volume: &KeptVolume, named: &NamedCells, cell: u32) -> bool
    requires met { KeepsRule volume.now ReserveCells }
    requires named { AreNamed volume.now.geometry (image_in volume.now) named.now }
    ensures { IsTrue result ↔ IsExpected volume.now.geometry (image_in volume.now) cell }
{
    if cell < 4 {
        return cell == 0;
    }
    if cell < volume.geometry.lists_at() {
        return true;
    }
    // The first blocks and the root lie up to the pool.
    if cell < volume.geometry.pool_at() {
        return named.has(cell);
    }
    if cell >= volume.log.edge {
        return false;
    }
    let Some(_owner) = volume.owner_of(cell) else {
        return true;
    };
    named.has(cell)
}
