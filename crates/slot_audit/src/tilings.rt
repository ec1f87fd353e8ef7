//! Rule 15: whether the blocks and nodes of each slot tile its block part.
//!
//! A slot that is done states in its journal which blocks and nodes it brought: where a jump cell leads into the slot's
//! own block part, 256 cells belong to a block there; where a child cell alone does, 32 cells belong to a node. Rule 15
//! asks that these tiles follow one another from the slot's first cell up to its document. Of a slot that reserves 580
//! to 870, with its document at 868 and its journal at 869:
//!
//!     869     a jump to 580      580 to 835
//!     870     a child to 836     836 to 867      they meet, and end where the document begins
//!
//! A child to 835 would lie within the block, and one to 837 would leave cell 836 to nobody: then rule 15 is broken at
//! the slot's commit cell.
//!
//! The cells to which jumps and children lead do not rise with the journal's cells, as its targets do. So those of one
//! slot are gone through from the greatest down: each tile has to end where the one behind it begins, and the first
//! tile has to begin where the slot does. It takes memory for the tiles of one slot at a time.
//!
//! `specs/Tiles.antt` says what a tile is.
ghost use Rattle.std.specs.Prelude.{◌↔◌, IsTrue, IfOk};
ghost use Rattle.tamper_rules.specs.Rules.{Journals, Tilings, TilingRule};
ghost use Rattle.log_audit.specs.KeptVolumes.{FindsIn, KeepsRule};
ghost use Rattle.log_audit.specs.Kept.{image_of_kept};
ghost use Rattle.log_audit.specs.Stored.{FitsInSlot};
ghost use Rattle.slot_audit.specs.Tables.{HaveTargets};

use crate::back::follow;
use crate::table::tiles_of;
use cell_types::{Evidence, NoMemory};
use log_audit::{KeptCells, KeptVolume, StoredSlot};
use std::alloc::Global;
use tamper_rules::UNTILED_BLOCKS;

/// The first commit cell at which rule 15 is broken, where the journals keep rule 5.
///
/// # Errors
///
/// `NoMemory`.
pub fn first_broken_tiling(alloc: Global, volume: &KeptVolume) -> Result<Option<Evidence>, NoMemory>
    requires journals { KeepsRule volume.now Journals }
    ensures { IfOk result (λ found. FindsIn volume.now Tilings found) }
{
    for slot in 0..volume.geometry.slots() {
        let Some(stored) = volume.stored_slot(slot) else {
            continue;
        };
        if is_tiled(alloc, &volume.kept, &stored)? {
            continue;
        }
        let cell = volume.geometry.outcome_at(slot);
        let Some(found) = volume.kept.at(cell) else {
            unreachable!();
        };
        return Ok(Some(Evidence {
            rule: UNTILED_BLOCKS,
            cell,
            found,
        }));
    }
    Ok(None)
}

/// Whether the tiles that a slot's journal states tile its block part.
fn is_tiled(alloc: Global, kept: &KeptCells, stored: &StoredSlot) -> Result<bool, NoMemory>
    requires cells { FitsInSlot stored.now }
    requires targets { HaveTargets (image_of_kept kept.now) stored.now }
    ensures { IfOk result (λ tiled. IsTrue tiled ↔ TilingRule (image_of_kept kept.now) stored.now.start stored.now.length
        stored.now.bytes stored.now.journal) }
{
    let tiles = tiles_of(alloc, kept, stored)?;
    Ok(follow(tiles, stored.start, stored.document_at()))
}
