//! The postings of documents.
ghost use Rattle.std.specs.Prelude.{◌≡◌, IfOk, IfNone, IfSome};
ghost use Rattle.volume_meaning.specs.Slots.{IsStampOf};
ghost use Rattle.tamper_rules.specs.Rules.{Documents};
ghost use Rattle.log_audit.specs.Kept.{image_of_kept};
ghost use Rattle.log_audit.specs.Findings.{IsMetAll};
ghost use Rattle.log_audit.specs.Stored.{IsStored};
ghost use Rattle.list_audit.specs.Bodies.{AreRowsOf, HasNoRows};

use crate::bodies::words_of;
use cell_types::{Geometry, NoMemory, RecordCell, Refusal};
use log_audit::{KeptCells, StoredSlot, record_at};
use std::alloc::Global;
use term_tags::{KnownKeys, ListedPosting, document_postings_by};

/// The postings of the document of a stored slot, where rule 4 is kept; none where a list would get more than 256 of its
/// tags. Words whose keys are known are not digested.
pub(crate) fn postings_of(
    alloc: Global,
    kept: &KeptCells,
    geometry: &Geometry,
    slot: &StoredSlot,
    known: &mut KnownKeys,
) -> Result<Option<Vec<ListedPosting>>, NoMemory>
    requires lists { known.old ≡ geometry.now.lists }
    requires stored { IsStored geometry.now (image_of_kept kept.now) slot.now }
    requires documents { IsMetAll geometry.now (image_of_kept kept.now) Documents }
    ensures some { IfOk result (λ found. IfSome found (λ rows.
        AreRowsOf geometry.now (image_of_kept kept.now) slot.now.slot rows.items)) }
    ensures none { IfOk result (λ found. IfNone found (HasNoRows geometry.now (image_of_kept kept.now) slot.now.slot)) }
    ensures same { known.new ≡ known.old }
{
    let _few = geometry.slots();
    let terms = words_of(alloc, kept, geometry, slot)?;
    let stamp = stamp_of(kept, geometry, slot);
    match document_postings_by(alloc, &terms, known, slot.slot, stamp) {
        Ok(rows) => Ok(Some(rows)),
        Err(
            Refusal::TooManyTerms {
                list: _list,
                count: _count,
            },
        ) => Ok(None),
        // Nothing else is refused but for want of memory.
        Err(refusal) => Err(refusal.lack()),
    }
}

/// The stamp of a stored slot, on a volume of stamped documents.
fn stamp_of(kept: &KeptCells, geometry: &Geometry, slot: &StoredSlot) -> Option<u32>
    requires { IsStored geometry.now (image_of_kept kept.now) slot.now }
    ensures { IsStampOf geometry.now (image_of_kept kept.now) slot.now.slot result }
{
    let _few = geometry.slots();
    if !geometry.is_stamped() {
        return None;
    }
    let Some(held) = record_at(kept, geometry.spare_at(slot.slot)) else {
        unreachable!();
    };
    let RecordCell::Stamp { seconds } = held else {
        unreachable!();
    };
    Some(seconds)
}
