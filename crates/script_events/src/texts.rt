//! Identifiers, bodies and words.
ghost use Rattle.std.specs.Prelude.{◌≡◌, ◌≤◌, ◌∷◌, [], length, IfOk};
ghost use Rattle.serde_json.specs.Data.{string};
ghost use Rattle.serde_json.specs.View.{view, items_view};
ghost use Rattle.volume_meaning.specs.Documents.{IsBody};
ghost use Rattle.volume_meaning.specs.Words.{AreWords};
ghost use Rattle.script_events.specs.Grammar.{SaysBody, SaysBytes, SaysIdentifier, SaysTerm};
ghost use Rattle.script_events.specs.Json.{AreItems, Exactly, IsArrayOf};
ghost use Rattle.script_events.specs.declared.limits.TheConstants.{MAX_WORDS};

use crate::limits::MAX_WORDS;
use crate::lists::count;
use crate::sequence::Sequence;
use cell_types::{NoMemory, memory};
use document_store::{Text, is_identifier};
use hex::FromHexError;
use serde_json::Value;
use std::alloc::Global;
use volume_meaning::{MAX_BODY_BYTES, WordRule};
use word_reader::{Term, WordFault, single_term};

/// The identifier that the value is.
pub(crate) fn identifier(alloc: Global, value: &Value) -> Result<Option<Text>, NoMemory>
    ensures { IfOk result (Exactly (λ id. SaysIdentifier id (view value.now))) }
{
    let Some(text) = value.as_str() else {
        return Ok(None);
    };
    if !is_identifier(text.as_bytes()) {
        return Ok(None);
    }
    Ok(Some(Text::new(memory::from_slice(alloc, text.as_bytes())?)))
}

/// The body that the members say.
pub(crate) fn body(alloc: Global, value: &Value) -> Result<Option<Text>, NoMemory>
    ensures { IfOk result (Exactly (λ body. SaysBody body (view value.now))) }
{
    match (value.get("body"), value.get("hex")) {
        (Some(body), None) => plain_body(alloc, body),
        (None, Some(hex)) => hex_body(alloc, hex),
        _ => Ok(None),
    }
}

/// The body that the value is.
fn plain_body(alloc: Global, value: &Value) -> Result<Option<Text>, NoMemory>
    ensures { IfOk result (Exactly (λ body. IsBody body × (view value.now ≡ string body))) }
{
    let Some(text) = value.as_str() else {
        return Ok(None);
    };
    let bytes = memory::from_slice(alloc, text.as_bytes())?;
    Ok(body_of(Text::new(bytes)))
}

/// The body that the value spells in hexadecimal.
fn hex_body(alloc: Global, value: &Value) -> Result<Option<Text>, NoMemory>
    ensures { IfOk result (Exactly (λ body. IsBody body × SaysBytes body (view value.now))) }
{
    let Some(bytes) = hex_bytes(alloc, value)? else {
        return Ok(None);
    };
    Ok(body_of(bytes))
}

/// These bytes, where they are a body.
fn body_of(bytes: Text) -> Option<Text>
    ensures { Exactly (λ body. IsBody body × (body ≡ bytes)) result }
{
    let all = bytes.bytes();
    if all.len() > MAX_BODY_BYTES {
        return None;
    }
    Some(bytes)
}

/// The bytes that the value spells in hexadecimal.
fn hex_bytes(alloc: Global, value: &Value) -> Result<Option<Text>, NoMemory>
    ensures { IfOk result (Exactly (λ bytes. SaysBytes bytes (view value.now))) }
{
    let Some(text) = value.as_str() else {
        return Ok(None);
    };
    match hex::decode(alloc, text.as_bytes()) {
        Ok(bytes) => Ok(Some(Text::new(bytes))),
        Err(FromHexError::OutOfMemory) => Err(memory::lacked_elsewhere()),
        Err(_) => Ok(None),
    }
}

/// The terms of the words that the array has, one to eight, by this rule.
pub(crate) fn terms(
    alloc: Global,
    value: &Value,
    rule: WordRule,
) -> Result<Option<Sequence<Term>>, NoMemory>
    ensures { IfOk result (Exactly (λ terms. IsArrayOf (SaysTerm rule) 1 MAX_WORDS terms (view value.now))) }
{
    let Some(array) = value.as_array() else {
        return Ok(None);
    };
    let many = count(array);
    if many < 1 {
        return Ok(None);
    }
    if many > MAX_WORDS {
        return Ok(None);
    }
    terms_in(alloc, array, rule)
}

/// The terms of these words.
fn terms_in(
    alloc: Global,
    array: &Vec<Value>,
    rule: WordRule,
) -> Result<Option<Sequence<Term>>, NoMemory>
    ensures { IfOk result (Exactly (λ terms. AreItems (SaysTerm rule) terms (items_view array.now.items))) }
{
    let mut found = Vec::new(alloc);
    for value in array {
        let Some(next) = term(alloc, value, rule)? else {
            return Ok(None);
        };
        memory::push(&mut found, next)?;
    }
    Ok(Some(Sequence::new(found)))
}

/// The one term of the word that the value is.
fn term(alloc: Global, value: &Value, rule: WordRule) -> Result<Option<Term>, NoMemory>
    ensures { IfOk result (Exactly (λ term. SaysTerm rule term (view value.now))) }
{
    let Some(text) = value.as_str() else {
        return Ok(None);
    };
    term_of(alloc, text.as_bytes(), rule)
}

/// The one term of a word.
fn term_of(alloc: Global, word: &[u8], rule: WordRule) -> Result<Option<Term>, NoMemory>
    ensures { IfOk result (Exactly (λ term. AreWords rule word.now (term ∷ []))) }
{
    match single_term(alloc, word, rule) {
        Ok(term) => Ok(Some(term)),
        Err(WordFault::BadWord) => Ok(None),
        Err(WordFault::NoMemory(lack)) => Err(lack),
    }
}
