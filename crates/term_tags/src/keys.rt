//! A list and a tag as one number, and the distinct ones of terms.
ghost use Rattle.std.specs.Prelude.{◌≡◌, ◌≤◌, IfOk};
ghost use Rattle.term_tags.specs.Keys.{AreKeys, key_of, keys_of, list_in, tag_in};

use crate::digests;
use crate::known_keys::KnownKeys;
use cell_types::{NoMemory, memory};
use std::alloc::Global;
use volume_meaning::digest_of;
use word_reader::Term;

/// How many tags there are: six bytes of them.
const TAGS: u64 = 1 << 48;

/// The key of a word's tag: two bytes of its list, six of the tag.
pub(crate) fn key_of(word: &[u8], lists: u16) -> u64
    requires { 1 ≤ lists }
    ensures { result ≡ key_of lists word.now }
{
    let digest = digest_of(word);
    let tag = u64::from_be_bytes([
        0, 0, digest[0], digest[1], digest[2], digest[3], digest[4], digest[5],
    ]);
    u64::from(digests::list_in(&digest, lists)) * TAGS + tag
}

/// The list of a key.
pub(crate) fn list_in(key: u64) -> u16
    ensures { result ≡ list_in key }
{
    (key / TAGS) as u16
}

/// The tag of a key.
pub(crate) fn tag_in(key: u64) -> [u8; 6]
    ensures { result ≡ tag_in key }
{
    let all = (key % TAGS).to_be_bytes();
    [all[2], all[3], all[4], all[5], all[6], all[7]]
}

/// The keys of the terms, in their order and with repeats.
fn keys_of(alloc: Global, terms: &[Term], known: &mut KnownKeys) -> Result<Vec<u64>, NoMemory>
    ensures keys { IfOk result (λ keys. keys.items ≡ keys_of known.old terms.now) }
    ensures same { known.new ≡ known.old }
{
    let mut keys = memory::with_capacity(alloc, terms.len())?;
    for term in terms {
        let key = known.key_of(term.bytes());
        memory::push(&mut keys, key)?;
    }
    Ok(keys)
}

/// The distinct keys of the terms, in rising order.
pub(crate) fn distinct_keys(
    alloc: Global,
    terms: &[Term],
    known: &mut KnownKeys,
) -> Result<Vec<u64>, NoMemory>
    ensures keys { IfOk result (λ keys. AreKeys known.old terms.now keys.items) }
    ensures same { known.new ≡ known.old }
{
    let mut keys = keys_of(alloc, terms, known)?;
    memory::sort(&mut keys)?;
    keys.dedup();
    Ok(keys)
}
