//! The rules of journals, of their targets, of stray cells and of tilings.
ghost use Rattle.std.specs.Prelude.{IfOk};
ghost use Rattle.log_audit.specs.KeptVolumes.{FindsIn, HasAllCells, KeepsBelow, KeepsRule};
ghost use Rattle.tamper_rules.specs.Rules.{Journals, ReserveCells, StrayCells, Targets, Tilings};

use cell_types::{Evidence, NoMemory};
use log_audit::KeptVolume;
use slot_audit::{
    first_broken_journal, first_broken_stray, first_broken_target, first_broken_tiling,
};
use std::alloc::Global;

/// `first_broken_journal`.
pub fn broken_journal_again(volume: &KeptVolume) -> Option<Evidence>
    requires met { KeepsBelow volume.now 5 }
    ensures { FindsIn volume.now Journals result }
{
    first_broken_journal(volume)
}

/// `first_broken_target`.
pub fn broken_target_again(volume: &KeptVolume) -> Option<Evidence>
    requires met { KeepsBelow volume.now 6 }
    ensures { FindsIn volume.now Targets result }
{
    first_broken_target(volume)
}

/// `first_broken_stray`.
pub fn broken_stray_again(alloc: Global, volume: &KeptVolume) -> Result<Option<Evidence>, NoMemory>
    requires met { KeepsRule volume.now ReserveCells }
    requires count { HasAllCells volume.now }
    ensures { IfOk result (λ found. FindsIn volume.now StrayCells found) }
{
    first_broken_stray(alloc, volume)
}

/// `first_broken_tiling`.
pub fn broken_tiling_again(alloc: Global, volume: &KeptVolume) -> Result<Option<Evidence>, NoMemory>
    requires journals { KeepsRule volume.now Journals }
    ensures { IfOk result (λ found. FindsIn volume.now Tilings found) }
{
    first_broken_tiling(alloc, volume)
}
