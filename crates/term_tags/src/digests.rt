//! A term's tag and its list, by its SHA-256.
ghost use Rattle.std.specs.Prelude.{◌≡◌, ◌≤◌, ◌<◌, ◌%◌, drop};
ghost use Rattle.byteorder.specs.Endian.{big_number};
ghost use Rattle.volume_meaning.specs.Postings.{list_of, tag_of};

use volume_meaning::digest_of;
use word_reader::Term;

/// The first six bytes of the term's digest.
pub fn tag(term: &Term) -> [u8; 6]
    ensures { result ≡ tag_of term.now }
{
    let digest = digest_of(term.bytes());
    [
        digest[0], digest[1], digest[2], digest[3], digest[4], digest[5],
    ]
}

/// Which of so many lists the term's tag is in: the number in the digest's next four bytes, modulo theirs.
pub fn list_of(term: &Term, lists: u16) -> u16
    requires { 1 ≤ lists }
    ensures same { result ≡ list_of lists term.now }
    ensures below { result < lists }
{
    list_in(&digest_of(term.bytes()), lists)
}

/// Which of so many lists a term of this digest is in.
pub(crate) fn list_in(digest: &[u8; 32], lists: u16) -> u16
    requires { 1 ≤ lists }
    ensures same { result ≡ big_number 4 (drop 6 digest.now) % lists }
    ensures below { result < lists }
{
    let number = u32::from_be_bytes([digest[6], digest[7], digest[8], digest[9]]);
    (number % u32::from(lists)) as u16
}
