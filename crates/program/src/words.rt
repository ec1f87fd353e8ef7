//! What the words of the program name.
ghost use Rattle.std.specs.Prelude.{◌↔◌, ℕ, List, map, IsTrue, IfSome, IfNone};
ghost use Rattle.std.specs.String.{string_bytes};
ghost use Rattle.program.specs.Asking.{IsFirst, IsHyphened, IsOfCopy, IsSame, NameTwo, TakesTarget};

use program_host::FileNumber;

/// Whether the word begins with a hyphen. Such a word is meant as an option, and the program has none.
pub(crate) fn is_hyphened(word: &[u8]) -> bool
    ensures { IsTrue result ↔ IsHyphened word.now }
{
    let Some((first, _)) = word.split_first() else {
        return false;
    };
    *first == b'-'
}

/// Whether the words of a command are those of a copy.
pub(crate) fn asks_to_copy(words: &[String]) -> bool
    ensures { IsTrue result ↔ IsOfCopy (map string_bytes words.now) }
{
    let Some((first, _)) = words.split_first() else {
        return false;
    };
    first.as_str() == "copy"
}

/// Takes the target out of the words of a copy, where it is among them: it stands behind the second.
pub(crate) fn take_target(words: &mut Vec<String>) -> Option<String>
    ensures some { IfSome result (λ target.
        TakesTarget (map string_bytes words.old.items) (string_bytes target) (map string_bytes words.new.items)) }
    ensures none { IfNone result ((image command target : List ℕ) (numbers : List (List ℕ))
        → ¬ NameTwo (map string_bytes words.old.items) image command target numbers) }
{
    if words.len() < 3 {
        return None;
    }
    Some(words.remove(2))
}

/// Whether two paths lead to one file, as far as the host tells.
pub(crate) fn is_same(one: Option<FileNumber>, other: Option<FileNumber>) -> bool
    ensures { IsTrue result ↔ IsSame one other }
{
    let Some(one) = one else {
        return false;
    };
    let Some(other) = other else {
        return false;
    };
    one == other
}

/// Whether the first file is held before the second, by whoever holds both.
pub(crate) fn is_first(one: Option<FileNumber>, other: Option<FileNumber>) -> bool
    ensures { IsTrue result ↔ IsFirst one other }
{
    let Some(one) = one else {
        return true;
    };
    let Some(other) = other else {
        return true;
    };
    one.is_before(&other)
}
