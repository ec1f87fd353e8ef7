//! A posting that stands in a cell.
ghost use Rattle.std.specs.Prelude.{◌≡◌, Some, IfSome, IfNone};
ghost use Rattle.volume_meaning.specs.Blocks.{PostingFields, posting_record};
ghost use Rattle.volume_meaning.specs.Volumes.{Holds};
ghost use Rattle.log_audit.specs.Kept.{image_of_kept};

use cell_types::RecordCell;
use log_audit::{KeptCells, record_at};
use volume_meaning::PostingFields;

/// The posting that stands in a cell, if one does that is well-formed there.
pub fn posting_at(kept: &KeptCells, at: u32) -> Option<PostingFields>
    ensures some { IfSome result (λ p. Holds (image_of_kept kept.now) at (posting_record p)) }
    ensures none { IfNone result ((p : PostingFields) → Holds (image_of_kept kept.now) at (posting_record p) → ⊥) }
    ensures one { (p : PostingFields) → Holds (image_of_kept kept.now) at (posting_record p) → result ≡ Some p }
{
    let Some(held) = record_at(kept, at) else {
        return None;
    };
    let RecordCell::Posting { key, last, tag } = held else {
        return None;
    };
    Some(PostingFields { key, last, tag })
}
