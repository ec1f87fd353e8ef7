//! What a bucket says.
use cell_types::RecordCell;

/// What a bucket says: the slot of a document, and the first bytes of its identifier's digest.
#[derive(Clone, Copy, Debug, PartialEq, Eq)]
pub struct HeldBucket {
    pub slot: u32,
    pub fingerprint: [u8; 7],
}

impl HeldBucket {
    ghost use Rattle.std.specs.Prelude.{◌≡◌, ◌↔◌, IsTrue};
    ghost use Rattle.volume_meaning.specs.HashPaths.{fingerprint_of};
    ghost use Rattle.volume_meaning.specs.Buckets.{IsBucketOf, IsOwnBucket};

    /// The bucket that a cell holds, if its record is one.
    pub fn of(held: RecordCell) -> Option<HeldBucket>
        ensures { IsBucketOf held result }
    {
        let RecordCell::Bucket { slot, fingerprint } = held else {
            return None;
        };
        Some(HeldBucket { slot, fingerprint })
    }

    /// Whether the bucket has the first seven bytes of the digest.
    pub fn has_fingerprint(&self, digest: &[u8; 32]) -> bool
        ensures { IsTrue result ↔ (self.now.fingerprint ≡ fingerprint_of digest.now) }
    {
        self.fingerprint[..] == digest[..7]
    }

    /// Whether the bucket is the slot's own, by the digest of its document's identifier.
    pub fn is_own(&self, slot: u32, digest: &[u8; 32]) -> bool
        ensures { IsTrue result ↔ IsOwnBucket self.now slot digest.now }
    {
        if self.slot != slot {
            return false;
        }
        self.has_fingerprint(digest)
    }
}
