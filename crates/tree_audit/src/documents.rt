//! The identifiers of documents.
ghost use Rattle.std.specs.Prelude.{◌≡◌, ◌≤◌, ◌↔◌, ℕ, List, IsTrue, IfSome, IfNone};
ghost use Rattle.volume_meaning.specs.Documents.{Stands};
ghost use Rattle.volume_meaning.specs.declared.limits.TheConstants.{MAX_IDENTIFIER_BYTES};
ghost use Rattle.document_store.specs.Heads.{id_of};
ghost use Rattle.tamper_rules.specs.Rules.{Documents};
ghost use Rattle.log_audit.specs.KeptVolumes.{HasAllCells, IsStated, KeepsRule, image_in};
ghost use Rattle.tree_audit.specs.Documents.{HasDigest, HasHead};

use document_store::{Head, Position, read_head};
use log_audit::{KeptVolume, Shown};
use volume_meaning::digest_of;

/// What stands before the body of the document of a slot, if the slot is done, where rule 4 is kept.
pub(crate) fn head_of(volume: &KeptVolume, slot: u32) -> Option<Head>
    requires stated { IsStated volume.now }
    requires count { HasAllCells volume.now }
    requires documents { KeepsRule volume.now Documents }
    ensures some { IfSome result (λ head. HasHead volume.now.geometry (image_in volume.now) slot head) }
    ensures none { IfNone result ((id body : List ℕ)
        → Stands volume.now.geometry.cells (image_in volume.now) slot id body → ⊥) }
{
    let Some(stored) = volume.stored_slot(slot) else {
        return None;
    };
    let mut shown = Shown::new(&volume.kept);
    let start = stored.document_at();
    let mut position = Position::new(start, stored.bytes);
    // Its cells are known to spell a document. So what stands before the body is enough, 14 cells at most: who asks for
    // one document again and again has not its whole body read each time.
    let Ok(head) = read_head(&mut shown, start, stored.bytes, &mut position) else {
        unreachable!();
    };
    Some(head)
}

/// The SHA-256 of the identifier of the document of a slot, if the slot is done, where rule 4 is kept.
pub(crate) fn identifier_digest(volume: &KeptVolume, slot: u32) -> Option<[u8; 32]>
    requires stated { IsStated volume.now }
    requires count { HasAllCells volume.now }
    requires documents { KeepsRule volume.now Documents }
    ensures some { IfSome result (λ digest. HasDigest volume.now.geometry (image_in volume.now) slot digest) }
    ensures none { IfNone result ((id body : List ℕ)
        → Stands volume.now.geometry.cells (image_in volume.now) slot id body → ⊥) }
{
    let Some(head) = head_of(volume, slot) else {
        return None;
    };
    Some(digest_of(identifier(&head)))
}

/// The identifier that stands before a body.
pub(crate) fn identifier(head: &Head) -> &[u8]
    requires { head.now.id_length ≤ MAX_IDENTIFIER_BYTES }
    ensures { result.now ≡ id_of head.now }
{
    &head.id[..usize::from(head.id_length)]
}

/// Whether the identifiers are the same.
pub(crate) fn same_identifier(one: &Head, other: &Head) -> bool
    requires one { one.now.id_length ≤ MAX_IDENTIFIER_BYTES }
    requires other { other.now.id_length ≤ MAX_IDENTIFIER_BYTES }
    ensures { IsTrue result ↔ (id_of one.now ≡ id_of other.now) }
{
    identifier(one) == identifier(other)
}
