//! Whether a bucket is passed.
ghost use Rattle.std.specs.Prelude.{◌≡◌, ◌≤◌};
ghost use Rattle.sha2.specs.Sha256.{sha256};
ghost use Rattle.kept_documents.specs.HashTrails.{AsksPassed};

use crate::refuted::refuted;
use cell_types::Volume;
use document_store::{same_identifier, slot_part};
use volume_meaning::HeldBucket;
use worm_device::{Failed, View};

/// Whether the bucket is passed: it has another fingerprint, or its slot stands with another identifier.
pub(crate) fn is_passed<V: View>(
    view: &mut V,
    volume: &Volume,
    bucket: &HeldBucket,
    id: &[u8],
    digest: &[u8; 32],
) -> Result<bool, Failed>
    requires size { volume.now.geometry.cells ≤ (V.seen view.old).cells }
    requires digest { digest.now ≡ sha256 id.now }
    ensures { AsksPassed volume.now.geometry id.now bucket.now (V.seen view.old) (V.seen view.new) result }
{
    if !bucket.has_fingerprint(digest) {
        return Ok(true);
    }
    if bucket.slot >= volume.geometry.slots() {
        return Ok(false);
    }
    let found = match slot_part(view, volume, bucket.slot) {
        Ok(found) => found,
        Err(fault) => return refuted(fault),
    };
    let Some(part) = found else {
        return Ok(false);
    };
    match same_identifier(view, &volume.geometry, &part, id) {
        Ok(true) => Ok(false),
        Ok(false) => Ok(true),
        Err(fault) => refuted(fault),
    }
}
