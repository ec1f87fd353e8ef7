//! A word of few bytes.
ghost use Rattle.std.specs.Prelude.{◌≡◌, [], IfSome};
ghost use Rattle.term_tags.specs.Known.{short_bytes};

/// How many bytes it has at most: of the words of a corpus two of a thousand have more.
const MOST_BYTES: usize = 15;

/// A word of at most 15 bytes, with zeros behind them.
#[derive(Clone, Copy, PartialEq, Eq)]
pub(crate) struct ShortWord {
    bytes: [u8; MOST_BYTES],
    length: u8,
}

impl ShortWord {
    /// No bytes.
    pub(crate) fn empty() -> ShortWord
        ensures { short_bytes result ≡ [] }
    {
        ShortWord {
            bytes: [0; MOST_BYTES],
            length: 0,
        }
    }

    /// The word of these bytes, if they are few enough.
    pub(crate) fn of(word: &[u8]) -> Option<ShortWord>
        ensures { IfSome result (λ short. short_bytes short ≡ word.now) }
    {
        if word.len() > MOST_BYTES {
            return None;
        }
        let mut bytes = [0; MOST_BYTES];
        bytes[..word.len()].copy_from_slice(word);
        Some(ShortWord {
            bytes,
            length: word.len() as u8,
        })
    }
}
