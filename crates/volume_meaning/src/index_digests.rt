//! A digest, and its parts.
ghost use Rattle.std.specs.Prelude.{◌≡◌, ◌<◌};
ghost use Rattle.sha2.specs.Sha256.{sha256};
ghost use Rattle.volume_meaning.specs.HashPaths.{fingerprint_of, nibble};

use sha2::{Digest, Sha256};

/// The SHA-256 of these bytes.
pub fn digest_of(bytes: &[u8]) -> [u8; 32]
    ensures { result ≡ sha256 bytes.now }
{
    Sha256::digest(bytes)
}

/// The first seven bytes of a digest.
pub fn fingerprint_of(digest: &[u8; 32]) -> [u8; 7]
    ensures { result ≡ fingerprint_of digest.now }
{
    let mut first = [0; 7];
    first.copy_from_slice(&digest[..7]);
    first
}

/// Half byte v of a digest, the high half of each byte first.
pub fn nibble_of(digest: &[u8; 32], v: u8) -> u8
    requires { v < 64 }
    ensures same { result ≡ nibble digest.now v }
    ensures below { result < 16 }
{
    let byte = digest[usize::from(v / 2)];
    if v % 2 == 0 { byte / 16 } else { byte % 16 }
}
