//! Whether terms are among the words of bytes that come one by one, by either rule of words.
ghost use Rattle.std.specs.Prelude.{◌≡◌, [], ◌∷◌, ℕ, List, IfOk};
ghost use Rattle.volume_meaning.specs.declared.word_rules.WordRule.{WordRule};
ghost use Rattle.word_reader.specs.Matching.{FinishEnds, HasPushed, PushEnds, Serves};

use crate::Term;
use crate::byte_matcher::ByteMatcher;
use crate::text_matcher::TextMatcher;
use cell_types::NoMemory;
use std::alloc::Global;
use volume_meaning::WordRule;

/// How a matcher goes about it, by the rule of words.
#[derive(Drop)]
enum Way {
    ByBytes(ByteMatcher),
    ByCharacters(TextMatcher),
}

/// Whether all of some terms are among the words of bytes that come one by one.
///
/// By bytes it keeps none of them, and takes memory in `new` alone. By characters it keeps them all.
#[derive(Drop)]
pub struct Matcher {
    way: Way,
}

impl Matcher {
    /// A matcher of these terms, to which no byte was pushed.
    pub fn new(alloc: Global, terms: &[Term], rule: WordRule) -> Result<Matcher, NoMemory>
        ensures { IfOk result (λ matcher. HasPushed matcher rule terms.now []) }
    {
        let way = way_of(alloc, terms, rule)?;
        Ok(Matcher { way })
    }

    /// Takes one more byte. By bytes it is always Ok; where memory is short nothing has changed.
    pub fn push(&mut self, byte: u8) -> Result<(), NoMemory>
        ensures { PushEnds self.old self.new (byte ∷ []) result }
    {
        match &mut self.way {
            Way::ByBytes(matcher) => {
                matcher.push(byte);
                Ok(())
            }
            Way::ByCharacters(matcher) => matcher.push_all(&[byte]),
        }
    }

    /// Takes these bytes. By bytes it is always Ok; where memory is short nothing has changed.
    pub fn push_all(&mut self, bytes: &[u8]) -> Result<(), NoMemory>
        ensures { PushEnds self.old self.new bytes.now result }
    {
        match &mut self.way {
            Way::ByBytes(matcher) => {
                matcher.push_all(bytes);
                Ok(())
            }
            Way::ByCharacters(matcher) => matcher.push_all(bytes),
        }
    }

    /// Whether each of the terms is among the words of the bytes so far. More bytes may follow. By bytes it is always Ok.
    pub fn finish(&mut self) -> Result<bool, NoMemory>
        ensures ends { FinishEnds self.old result }
        ensures same { self.new ≡ self.old }
    {
        match &self.way {
            Way::ByBytes(matcher) => Ok(matcher.finish()),
            Way::ByCharacters(matcher) => matcher.finish(),
        }
    }

    /// Forgets the bytes and keeps the terms, so that it serves for the next body.
    pub fn clear(&mut self)
        ensures { (rule : WordRule) (terms : List (List ℕ)) (bytes : List ℕ) → HasPushed self.old rule terms bytes
            → HasPushed self.new rule terms [] }
    {
        match &mut self.way {
            Way::ByBytes(matcher) => matcher.clear(),
            Way::ByCharacters(matcher) => matcher.clear(),
        }
    }
}

/// The way of a rule, to which no byte was pushed.
fn way_of(alloc: Global, terms: &[Term], rule: WordRule) -> Result<Way, NoMemory>
    ensures { IfOk result (λ way. Serves way rule terms.now []) }
{
    match rule {
        WordRule::Ascii => Ok(Way::ByBytes(ByteMatcher::new(alloc, terms)?)),
        WordRule::Folded => Ok(Way::ByCharacters(TextMatcher::new(alloc, terms)?)),
    }
}
