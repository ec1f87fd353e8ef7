//! Words of bytes.
ghost use Rattle.std.specs.Prelude.{◌≡◌, IfOk};
ghost use Rattle.volume_meaning.specs.Words.{AreWords};
ghost use Rattle.word_reader.specs.Matching.{FinishEnds};
ghost use Rattle.word_reader.specs.Single.{SingleEnds};

use cell_types::NoMemory;
use std::alloc::Global;
use volume_meaning::WordRule;
use word_reader::{Matcher, Term, WordFault, single_term, words};

/// `words`.
pub fn words_again(alloc: Global, bytes: &[u8], rule: WordRule) -> Result<Vec<Term>, NoMemory>
    ensures { IfOk result (λ terms. AreWords rule bytes.now terms.items) }
{
    words(alloc, bytes, rule)
}

/// `single_term`.
pub fn single_term_again(alloc: Global, word: &[u8], rule: WordRule) -> Result<Term, WordFault>
    ensures { SingleEnds rule word.now result }
{
    single_term(alloc, word, rule)
}

/// `Matcher::finish`.
pub fn finish_again(matcher: &mut Matcher) -> Result<bool, NoMemory>
    ensures ends { FinishEnds matcher.old result }
    ensures same { matcher.new ≡ matcher.old }
{
    matcher.finish()
}
