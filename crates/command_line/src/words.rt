//! The words of a command, read in place.
ghost use Rattle.std.specs.Prelude.{◌≡◌, ◌↔◌, ℕ, List, [], ◌∷◌, Option, map, IfSome, IfNone, IsTrue};
ghost use Rattle.std.specs.String.{string_bytes};
ghost use Rattle.command_line.specs.Asking.{AsksBetween, AsksByVersion, AsksForReceipt, AsksPlainly, AsksToExercise, AsksToFind, AsksToFormat, AsksToIngest, AsksToLookUp, AsksWithNumbers, AsksWithStamp, AsksWithoutStamp};
ghost use Rattle.command_line.specs.Words.{IsNoOption};
ghost use Rattle.command_line.specs.Requests.{Asks, AsksNothing, request_of};

use crate::numbers::{is_option, number_up_to, seconds_of};
use cell_types::{FIRST_VERSION, MAX_LISTS, MAX_SLOTS, NEWEST_VERSION};

/// The greatest number of words that a `find` may have.
pub const MAX_QUERY_WORDS: usize = 8;

/// The greatest number of documents that an `exercise` may have.
pub const MAX_DOCUMENTS: u32 = 2_000;

/// A command, with what it was given.
#[derive(Clone, Copy)]
pub enum Command<'a> {
    /// Make the device a volume of so many slots and lists, and of this version, each in its range.
    Format { slots: u32, lists: u16, version: u8 },
    /// Store a document by this name, which may be an identifier or not, with a stamp of these seconds, if it is to have
    /// one.
    Ingest { id: &'a [u8], stamp: Option<u32> },
    /// Search the documents for 1 to 8 words, each of which may hold one term or not.
    Find { words: &'a [String] },
    /// Put out the document of this name, which may be an identifier or not.
    LookUp { id: &'a [u8] },
    /// Settle the volume.
    Recover,
    /// Say whether the volume keeps its rules.
    Audit,
    /// Replay a script on a device in memory.
    Replay,
    /// Do the exercise with so many documents on a device in memory.
    Exercise { documents: u32 },
    /// Check a receipt.
    Check,
    /// Put out a receipt of the document of this name, which may be an identifier or not.
    MakeReceipt { id: &'a [u8] },
    /// Search the documents whose stamps lie from one time to another, in seconds, of which the first is not past the
    /// second.
    FindBetween { from: u32, to: u32 },
}

/// How many slots and lists a volume has, or is to have, each in its range.
#[derive(Clone, Copy)]
pub struct Numbers {
    /// The slots.
    pub slots: u32,
    /// The lists.
    pub lists: u16,
}

/// The command that the words ask for.
pub fn command_of(words: &[String]) -> Option<Command<'_>>
    ensures some { IfSome result (λ command. Asks (map string_bytes words.now) (request_of command)) }
    ensures none { IfNone result (AsksNothing (map string_bytes words.now)) }
{
    if let Some(command) = format_of(words) {
        return Some(command);
    }
    if let Some(command) = ingest_of(words) {
        return Some(command);
    }
    if let Some(command) = find_of(words) {
        return Some(command);
    }
    if let Some(command) = lookup_of(words) {
        return Some(command);
    }
    if is_alone(words, "recover") {
        return Some(Command::Recover);
    }
    if is_alone(words, "audit") {
        return Some(Command::Audit);
    }
    if is_alone(words, "replay") {
        return Some(Command::Replay);
    }
    if let Some(command) = exercise_of(words) {
        return Some(command);
    }
    if is_alone(words, "check") {
        return Some(Command::Check);
    }
    if let Some(command) = receipt_of(words) {
        return Some(command);
    }
    between_of(words)
}

/// Whether the words are this one alone.
fn is_alone(words: &[String], command: &str) -> bool
    ensures { IsTrue result ↔ (map string_bytes words.now ≡ command.now ∷ []) }
{
    let [word] = words else {
        return false;
    };
    word.as_str() == command
}

/// The word behind this one, where there are these two alone and it is not empty and begins with no hyphen.
fn word_behind<'a>(words: &'a [String], command: &str) -> Option<&'a [u8]>
    ensures some { IfSome result (λ word. (map string_bytes words.now ≡ command.now ∷ word.now ∷ [])
        × IsNoOption word.now) }
    ensures none { IfNone result ((word : List ℕ) → map string_bytes words.now ≡ command.now ∷ word ∷ []
        → IsNoOption word → ⊥) }
{
    let [first, word] = words else {
        return None;
    };
    let word = word.as_bytes();
    if first.as_str() != command || is_option(word) {
        return None;
    }
    Some(word)
}

/// The numbers of slots and lists behind this name, where the words are the name and these two, each in its range.
pub fn numbers_behind(words: &[String], name: &str) -> Option<Numbers>
    ensures some { IfSome result (λ numbers.
        AsksWithNumbers name.now (map string_bytes words.now) numbers.slots numbers.lists) }
    ensures none { IfNone result ((slots lists : ℕ)
        → AsksWithNumbers name.now (map string_bytes words.now) slots lists → ⊥) }
{
    let [command, slots, lists] = words else {
        return None;
    };
    if command.as_str() != name {
        return None;
    }
    let slots = number_up_to(MAX_SLOTS, slots.as_bytes())?;
    let lists = number_up_to(u32::from(MAX_LISTS), lists.as_bytes())?;
    Some(Numbers {
        slots,
        lists: lists as u16,
    })
}

/// The command `format`, where the words are this and two or three numbers in range.
fn format_of(words: &[String]) -> Option<Command<'_>>
    ensures some { IfSome result (λ command. Asks (map string_bytes words.now) (request_of command)) }
    ensures none { IfNone result ((slots lists version : ℕ)
        → AsksToFormat (map string_bytes words.now) slots lists version → ⊥) }
{
    if let Some(command) = plain_format_of(words) {
        return Some(command);
    }
    versioned_format_of(words)
}

/// The same where no version is stated, which asks for the first.
fn plain_format_of(words: &[String]) -> Option<Command<'_>>
    ensures some { IfSome result (λ command. Asks (map string_bytes words.now) (request_of command)) }
    ensures none { IfNone result ((slots lists : ℕ) → AsksPlainly (map string_bytes words.now) slots lists → ⊥) }
{
    let Numbers { slots, lists } = numbers_behind(words, "format")?;
    Some(Command::Format {
        slots,
        lists,
        version: FIRST_VERSION,
    })
}

/// The same where a version is stated.
fn versioned_format_of(words: &[String]) -> Option<Command<'_>>
    ensures some { IfSome result (λ command. Asks (map string_bytes words.now) (request_of command)) }
    ensures none { IfNone result ((slots lists version : ℕ)
        → AsksByVersion (map string_bytes words.now) slots lists version → ⊥) }
{
    let (last, plain) = words.split_last()?;
    let Numbers { slots, lists } = numbers_behind(plain, "format")?;
    let version = number_up_to(u32::from(NEWEST_VERSION), last.as_bytes())?;
    Some(Command::Format {
        slots,
        lists,
        version: version as u8,
    })
}

/// The command `ingest`, where the words are this, one that is not empty and begins with no hyphen, and perhaps the
/// seconds of a stamp.
fn ingest_of(words: &[String]) -> Option<Command<'_>>
    ensures some { IfSome result (λ command. Asks (map string_bytes words.now) (request_of command)) }
    ensures none { IfNone result ((id : List ℕ) (stamp : Option ℕ)
        → AsksToIngest (map string_bytes words.now) id stamp → ⊥) }
{
    if let Some(command) = unstamped_ingest_of(words) {
        return Some(command);
    }
    stamped_ingest_of(words)
}

/// The same where no stamp is stated.
fn unstamped_ingest_of(words: &[String]) -> Option<Command<'_>>
    ensures some { IfSome result (λ command. Asks (map string_bytes words.now) (request_of command)) }
    ensures none { IfNone result ((id : List ℕ) → AsksWithoutStamp (map string_bytes words.now) id → ⊥) }
{
    let id = word_behind(words, "ingest")?;
    Some(Command::Ingest { id, stamp: None })
}

/// The same where the seconds of a stamp are stated.
fn stamped_ingest_of(words: &[String]) -> Option<Command<'_>>
    ensures some { IfSome result (λ command. Asks (map string_bytes words.now) (request_of command)) }
    ensures none { IfNone result ((id : List ℕ) (seconds : ℕ)
        → AsksWithStamp (map string_bytes words.now) id seconds → ⊥) }
{
    let [command, id, seconds] = words else {
        return None;
    };
    let id = id.as_bytes();
    if command.as_str() != "ingest" || is_option(id) {
        return None;
    }
    let seconds = seconds_of(seconds.as_bytes())?;
    Some(Command::Ingest {
        id,
        stamp: Some(seconds),
    })
}

/// The command `find`, where the words are this and 1 to 8 others, none of which is empty or begins with a hyphen.
fn find_of(words: &[String]) -> Option<Command<'_>>
    ensures some { IfSome result (λ command. Asks (map string_bytes words.now) (request_of command)) }
    ensures none { IfNone result ((asked : List (List ℕ)) → AsksToFind (map string_bytes words.now) asked → ⊥) }
{
    let (command, asked) = words.split_first()?;
    if command.as_str() != "find" || asked.is_empty() || asked.len() > MAX_QUERY_WORDS {
        return None;
    }
    if asked.iter().any(|word| is_option(word.as_bytes())) {
        return None;
    }
    Some(Command::Find { words: asked })
}

/// The command `lookup`, where the words are this and one that is not empty and begins with no hyphen.
fn lookup_of(words: &[String]) -> Option<Command<'_>>
    ensures some { IfSome result (λ command. Asks (map string_bytes words.now) (request_of command)) }
    ensures none { IfNone result ((id : List ℕ) → AsksToLookUp (map string_bytes words.now) id → ⊥) }
{
    let id = word_behind(words, "lookup")?;
    Some(Command::LookUp { id })
}

/// The command `exercise`, where the words are this and a number in range.
fn exercise_of(words: &[String]) -> Option<Command<'_>>
    ensures some { IfSome result (λ command. Asks (map string_bytes words.now) (request_of command)) }
    ensures none { IfNone result ((documents : ℕ) → AsksToExercise (map string_bytes words.now) documents → ⊥) }
{
    let [command, documents] = words else {
        return None;
    };
    if command.as_str() != "exercise" {
        return None;
    }
    let documents = number_up_to(MAX_DOCUMENTS, documents.as_bytes())?;
    Some(Command::Exercise { documents })
}

/// The command `receipt`, where the words are this and one that is not empty and begins with no hyphen.
fn receipt_of(words: &[String]) -> Option<Command<'_>>
    ensures some { IfSome result (λ command. Asks (map string_bytes words.now) (request_of command)) }
    ensures none { IfNone result ((id : List ℕ) → AsksForReceipt (map string_bytes words.now) id → ⊥) }
{
    let id = word_behind(words, "receipt")?;
    Some(Command::MakeReceipt { id })
}

/// The command `between`, where the words are this and the seconds of two times, of which the first is not past the second.
fn between_of(words: &[String]) -> Option<Command<'_>>
    ensures some { IfSome result (λ command. Asks (map string_bytes words.now) (request_of command)) }
    ensures none { IfNone result ((from to : ℕ) → AsksBetween (map string_bytes words.now) from to → ⊥) }
{
    let [command, from, to] = words else {
        return None;
    };
    if command.as_str() != "between" {
        return None;
    }
    let from = seconds_of(from.as_bytes())?;
    let to = seconds_of(to.as_bytes())?;
    if from > to {
        return None;
    }
    Some(Command::FindBetween { from, to })
}
