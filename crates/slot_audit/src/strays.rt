//! Rule 7: whether no cell of a volume is written where nothing is expected.
//!
//! It asks four things of a written cell:
//!
//!     cells 1, 2, 3            stay blank
//!     spare cells 7, 11, ..    are blank, or hold the stamp of their slot, greater than those of the done slots below
//!     cells of the index       first blocks, the root, and the block parts of done slots: a done slot's journal names them
//!     cells of the pool        lie before the edge, where the last reservation ends
//!
//! Of the volume of 8 slots and 2 lists on 1,000 cells that holds the document `a` in the cells 580 to 583, whose journal
//! names 36, 37 and 560, somebody else has written cell 40 and cell 700:
//!
//!     cell 36     is of the first block of list 0, and named              expected
//!     cell 40     is of the first block of list 0, and named by nobody    rule 7 is broken here first
//!     cell 580    is of slot 0, of its document                           expected
//!     cell 700    lies behind the edge, 584                               not expected
//!
//! The cells that journals name are put into a row in order, 4 bytes each, where bisection finds one.
//!
//! `specs/Strays.antt` has the rule in its parts.
ghost use Rattle.std.specs.Prelude.{IfOk};
ghost use Rattle.tamper_rules.specs.Rules.{ReserveCells, StrayCells};
ghost use Rattle.log_audit.specs.KeptVolumes.{FindsIn, HasAllCells, KeepsRule};

use crate::named::named_cells;
use crate::stamps::first_false_stamp;
use crate::stray_places::first_unexpected;
use cell_types::{Evidence, NoMemory};
use log_audit::{KeptVolume, lower_of};
use std::alloc::Global;

/// The least cell at which rule 7 is broken. It takes 4 bytes a journal cell.
///
/// # Errors
///
/// `NoMemory`.
pub fn first_broken_stray(alloc: Global, volume: &KeptVolume) -> Result<Option<Evidence>, NoMemory>
    requires met { KeepsRule volume.now ReserveCells }
    requires count { HasAllCells volume.now }
    ensures { IfOk result (λ found. FindsIn volume.now StrayCells found) }
{
    let named = named_cells(alloc, volume)?;
    let unexpected = first_unexpected(volume, &named);
    let stamp = first_false_stamp(volume);
    Ok(lower_of(unexpected, stamp))
}
