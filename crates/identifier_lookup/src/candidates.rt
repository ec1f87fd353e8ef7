//! A bucket that may be that of an identifier.
ghost use Rattle.std.specs.Prelude.{◌≡◌, ◌<◌, ◌≤◌, IsTrue};
ghost use Rattle.cell_types.specs.declared.geometry.TheConstants.{MAX_SLOTS};
ghost use Rattle.tamper_rules.specs.declared.numbers.TheConstants.{FAKE_BUCKET};
ghost use Rattle.identifier_lookup.specs.Candidates.{Compares, HoldsNamed, IsNamedCell};

use cell_types::{Evidence, Fault, RecordCell, Volume, encode};
use document_store::{Part, same_identifier, slot_part};
use tamper_rules::FAKE_BUCKET;
use volume_meaning::fingerprint_of;
use worm_device::View;

/// A bucket with the fingerprint of this digest, which names a slot.
#[derive(Clone, Copy)]
pub struct Named {
    /// The number of the bucket.
    pub bucket: u32,
    pub slot: u32,
    pub digest: [u8; 32],
}

/// Where the document of the slot lies that a bucket names, if it has this identifier. The bucket is evidence where the
/// slot is at or past the horizon, or not done.
pub fn part_with_identifier<V: View>(
    view: &mut V,
    volume: &Volume,
    horizon: u32,
    named: &Named,
    id: &[u8],
) -> Result<Option<Part>, Fault>
    requires size { volume.now.geometry.cells ≤ (V.seen view.old).cells }
    requires horizon { horizon ≤ volume.now.geometry.slots }
    requires slot { named.now.slot < MAX_SLOTS }
    requires bucket { IsTrue (V.seen view.old).base.tells → HoldsNamed (V.seen view.old).image named.now }
    ensures { Compares volume.now.geometry horizon named.now id.now (V.seen view.old) (V.seen view.new) result }
{
    if named.slot >= horizon {
        return Err(Fault::Tampered(fake_bucket(named)));
    }
    let found = slot_part(view, volume, named.slot)?;
    let Some(part) = found else {
        return Err(Fault::Tampered(fake_bucket(named)));
    };
    let same = same_identifier(view, &volume.geometry, &part, id)?;
    if !same {
        return Ok(None);
    }
    Ok(Some(part))
}

/// The bucket, as evidence that it is no true one.
fn fake_bucket(named: &Named) -> Evidence
    requires { named.now.slot < MAX_SLOTS }
    ensures rule { result.rule ≡ FAKE_BUCKET }
    ensures cell { result.cell ≡ named.now.bucket }
    ensures found { IsNamedCell named.now result.found }
{
    let bucket = RecordCell::Bucket {
        slot: named.slot,
        fingerprint: fingerprint_of(&named.digest),
    };
    Evidence {
        rule: FAKE_BUCKET,
        cell: named.bucket,
        found: encode(bucket, named.bucket),
    }
}
