//! The words of documents.
ghost use Rattle.std.specs.Prelude.{◌≡◌, ◌≤◌, ◌+◌, ◌^◌, ℕ, List, take, IfOk, IfSome, IfNone};
ghost use Rattle.volume_meaning.specs.Documents.{stored_bytes};
ghost use Rattle.volume_meaning.specs.Slots.{cells_for};
ghost use Rattle.tamper_rules.specs.Rules.{Documents, HasDocument};
ghost use Rattle.log_audit.specs.Kept.{image_of_kept};
ghost use Rattle.log_audit.specs.Findings.{IsMetAll};
ghost use Rattle.log_audit.specs.Stored.{IsStored};
ghost use Rattle.list_audit.specs.Bodies.{AreStored, AreWordsOf, HoldsContent, IsStoredDocument};

use cell_types::{Content, Geometry, NoMemory, content_of, memory};
use commit_record::document_cells;
use log_audit::{KeptCells, StoredSlot};
use std::alloc::Global;
use volume_meaning::rule_of;
use word_reader::{Term, words};

/// The words of the document of a stored slot, where rule 4 is kept.
pub(crate) fn words_of(
    alloc: Global,
    kept: &KeptCells,
    geometry: &Geometry,
    slot: &StoredSlot,
) -> Result<Vec<Term>, NoMemory>
    requires stored { IsStored geometry.now (image_of_kept kept.now) slot.now }
    requires documents { IsMetAll geometry.now (image_of_kept kept.now) Documents }
    ensures { IfOk result (λ terms. AreWordsOf geometry.now (image_of_kept kept.now) slot.now.slot terms.items) }
{
    let stored = stored_of(alloc, kept, slot.document_at(), slot.bytes)?;
    let terms = words(alloc, body_in(&stored), rule_of(geometry.version()))?;
    Ok(terms)
}

/// The body behind an identifier and the byte that counts it.
fn body_in(stored: &[u8]) -> &[u8]
    requires { IsStoredDocument stored.now }
    ensures { (id body : List ℕ) → stored.now ≡ stored_bytes id body → result.now ≡ body }
{
    let from = 1 + usize::from(stored[0]);
    &stored[from..]
}

/// The stored bytes of the document that so many bytes from this cell on spell.
fn stored_of(alloc: Global, kept: &KeptCells, start: u32, bytes: u32) -> Result<Vec<u8>, NoMemory>
    requires spells { HasDocument (image_of_kept kept.now) start bytes }
    requires room { start + cells_for bytes ≤ 2 ^ 31 }
    ensures { IfOk result (λ stored. AreStored (image_of_kept kept.now) start bytes stored.items) }
{
    let mut stored = Vec::new(alloc);
    for place in 0..document_cells(bytes) {
        let Some(held) = content_in(kept, start + place) else {
            unreachable!();
        };
        memory::extend_from_slice(&mut stored, &held.bytes[..usize::from(held.length)])?;
    }
    Ok(stored)
}

/// What the content cell there holds, if one stands there.
fn content_in(kept: &KeptCells, at: u32) -> Option<Content>
    ensures some { IfSome result (λ held. HoldsContent (image_of_kept kept.now) at (take held.length held.bytes)) }
    ensures most { IfSome result (λ held. held.length ≤ 15) }
    ensures none { IfNone result ((bytes : List ℕ) → HoldsContent (image_of_kept kept.now) at bytes → ⊥) }
{
    let Some(cell) = kept.at(at) else {
        return None;
    };
    content_of(cell)
}
