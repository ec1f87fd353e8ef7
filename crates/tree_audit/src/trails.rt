//! Rule 14: the hash trails of documents.
ghost use Rattle.std.specs.Prelude.{◌≡◌, ◌≤◌, ◌↔◌, IsTrue};
ghost use Rattle.sha2.specs.Sha256.{sha256};
ghost use Rattle.volume_meaning.specs.declared.limits.TheConstants.{MAX_IDENTIFIER_BYTES};
ghost use Rattle.tamper_rules.specs.Rules.{Documents, Paths};
ghost use Rattle.document_store.specs.Heads.{id_of};
ghost use Rattle.log_audit.specs.KeptVolumes.{FindsIn, HasAllCells, IsStated, KeepsRule, image_in};
ghost use Rattle.tree_audit.specs.Paths.{HasRootTrail, IsOther};

use crate::documents::{head_of, identifier, same_identifier};
use crate::looks::{bucket_at, child_at};
use crate::paths::LEVELS;
use cell_types::Evidence;
use document_store::Head;
use log_audit::KeptVolume;
use tamper_rules::MISSING_PATH;
use volume_meaning::{HeldBucket, NODE_BUCKETS, digest_of, nibble_of};

/// The first done cell at which rule 14 is broken, where rule 4 is kept. Only hash trails are looked for: of two
/// documents with one identifier one alone has such a trail.
pub fn first_broken_path(volume: &KeptVolume) -> Option<Evidence>
    requires stated { IsStated volume.now }
    requires count { HasAllCells volume.now }
    requires documents { KeepsRule volume.now Documents }
    ensures { FindsIn volume.now Paths result }
{
    for slot in 0..volume.geometry.slots() {
        let Some(head) = head_of(volume, slot) else {
            continue;
        };
        if has_hash_trail(volume, slot, &head) {
            continue;
        }
        let cell = volume.geometry.done_at(slot);
        let Some(found) = volume.kept.at(cell) else {
            continue;
        };
        return Some(Evidence {
            rule: MISSING_PATH,
            cell,
            found,
        });
    }
    None
}

/// Whether the slot has a hash trail as that of the head's identifier.
fn has_hash_trail(volume: &KeptVolume, slot: u32, head: &Head) -> bool
    requires stated { IsStated volume.now }
    requires count { HasAllCells volume.now }
    requires documents { KeepsRule volume.now Documents }
    requires room { head.now.id_length ≤ MAX_IDENTIFIER_BYTES }
    ensures { IsTrue result ↔ HasRootTrail volume.now.geometry (image_in volume.now) (id_of head.now) slot }
{
    let _cells = volume.geometry.cells();
    let digest = digest_of(identifier(head));
    let mut node = volume.geometry.root_at();
    for level in 0..LEVELS {
        let x = u32::from(nibble_of(&digest, level));
        let Some(bucket) = bucket_at(&volume.kept, node + x) else {
            return false;
        };
        if bucket.is_own(slot, &digest) {
            return true;
        }
        if !is_passed(volume, &bucket, head, &digest) {
            return false;
        }
        let Some(under) = child_at(&volume.kept, &volume.geometry, node + NODE_BUCKETS + x) else {
            return false;
        };
        node = under;
    }
    false
}

/// Whether a hash trail of the head's identifier passes the bucket.
fn is_passed(volume: &KeptVolume, bucket: &HeldBucket, head: &Head, digest: &[u8; 32]) -> bool
    requires stated { IsStated volume.now }
    requires count { HasAllCells volume.now }
    requires documents { KeepsRule volume.now Documents }
    requires room { head.now.id_length ≤ MAX_IDENTIFIER_BYTES }
    requires digest { digest.now ≡ sha256 (id_of head.now) }
    ensures { IsTrue result ↔ IsOther volume.now.geometry (image_in volume.now) (id_of head.now) bucket.now }
{
    if !bucket.has_fingerprint(digest) {
        return true;
    }
    let Some(other) = head_of(volume, bucket.slot) else {
        return false;
    };
    if same_identifier(&other, head) {
        return false;
    }
    true
}
