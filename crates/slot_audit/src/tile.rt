//! Tiles, as journal cells state them.
ghost use Rattle.std.specs.Prelude.{◌≡◌, Some, IfSome, IfNone};
ghost use Rattle.cell_types.specs.declared.record_cell.RecordCell.{RecordCell};
ghost use Rattle.log_audit.specs.Kept.{image_of_kept};
ghost use Rattle.slot_audit.specs.Copied.{IsCopied};
ghost use Rattle.slot_audit.specs.Tiles.{TileEnds, tile_in};

use cell_types::{RecordCell, address_of, decode};
use log_audit::KeptCells;
use volume_meaning::{BLOCK_CELLS, NODE_CELLS};

/// A block or a node: its first cell, and how many cells belong to it.
#[derive(Clone, Copy)]
pub struct Tile {
    pub target: u32,
    pub size: u32,
}

/// What a cell leads to, where a copy of a jump or of a child stands in it.
pub fn tile_at(kept: &KeptCells, at: u32) -> Option<Tile>
    ensures { TileEnds (image_of_kept kept.now) at result }
{
    let Some(held) = copied_at(kept, at) else {
        return None;
    };
    tile_of(&held)
}

/// The record of which a copy stands in a cell, well-formed at the copy's own address.
fn copied_at(kept: &KeptCells, at: u32) -> Option<RecordCell>
    ensures some { IfSome result (λ held. IsCopied (image_of_kept kept.now) at held) }
    ensures none { IfNone result ((held : RecordCell) → IsCopied (image_of_kept kept.now) at held → ⊥) }
    ensures one { (held : RecordCell) → IsCopied (image_of_kept kept.now) at held → result ≡ Some held }
{
    let Some(cell) = kept.at(at) else {
        return None;
    };
    decode(cell, address_of(cell))
}

/// What a record leads to, if it is a jump or a child.
fn tile_of(held: &RecordCell) -> Option<Tile>
    ensures { result ≡ tile_in held.now }
{
    match *held {
        RecordCell::Jump { target } => Some(Tile {
            target,
            size: BLOCK_CELLS,
        }),
        RecordCell::Child { target } => Some(Tile {
            target,
            size: NODE_CELLS,
        }),
        _ => None,
    }
}
