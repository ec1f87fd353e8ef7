//! The documents of the exercise.
ghost use Rattle.std.specs.Prelude.{◌≡◌, ◌<◌, ◌≤◌, IfOk, string_bytes};
ghost use Rattle.volume_exercise.specs.Documents.{body_of, digit_of, identifier_of, word_at, word_of};
ghost use Rattle.command_line.specs.declared.words.TheConstants.{MAX_DOCUMENTS};
ghost use Rattle.volume_exercise.specs.declared.limits.TheConstants.{BODY_WORDS};

use crate::limits::{BODY_WORDS, DISTINCT_WORDS};
use cell_types::{NoMemory, memory};
use std::alloc::Global;

/// The word of this number.
pub(crate) fn word(alloc: Global, number: u32) -> Result<String, NoMemory>
    ensures { IfOk result (λ text. string_bytes text ≡ word_of number) }
{
    memory::format(alloc, format_args!("w{number}"))
}

/// The number of the word at this place of the document.
fn word_at(document: u32, place: u32) -> u32
    requires few { document < MAX_DOCUMENTS }
    requires inside { place < BODY_WORDS }
    ensures { result ≡ word_at document place }
{
    (document + place * place) % DISTINCT_WORDS
}

/// The body of the document: its words, with one space between.
pub(crate) fn body(alloc: Global, document: u32) -> Result<String, NoMemory>
    requires { document < MAX_DOCUMENTS }
    ensures { IfOk result (λ text. string_bytes text ≡ body_of document) }
{
    let mut text = word(alloc, word_at(document, 0))?;
    for place in 1..BODY_WORDS {
        memory::push_str(&mut text, " ")?;
        let next = word(alloc, word_at(document, place))?;
        memory::push_str(&mut text, next.as_str())?;
    }
    Ok(text)
}

/// The digit of the number at this power of ten.
fn digit_of(number: u32, power: u32) -> u8
    requires { 1 ≤ power }
    ensures { result ≡ digit_of number power }
{
    b'0' + ((number / power) % 10) as u8
}

/// The identifier of the document: `d` and its number in six digits.
pub(crate) fn identifier(alloc: Global, document: u32) -> Result<Vec<u8>, NoMemory>
    ensures { IfOk result (λ id. id.items ≡ identifier_of document) }
{
    let id = [
        b'd',
        digit_of(document, 100_000),
        digit_of(document, 10_000),
        digit_of(document, 1_000),
        digit_of(document, 100),
        digit_of(document, 10),
        digit_of(document, 1),
    ];
    memory::from_slice(alloc, &id)
}
