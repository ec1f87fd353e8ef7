//! The document of one slot, read once while words are sought in it.
ghost use Rattle.std.specs.Prelude.{◌≡◌, ◌<◌, ◌≤◌, ◌+◌, [], ℕ, List, IsTrue};
ghost use Rattle.volume_meaning.specs.Slots.{cells_for};
ghost use Rattle.volume_meaning.specs.Words.{rule_of};
ghost use Rattle.volume_meaning.specs.declared.word_rules.WordRule.{WordRule};
ghost use Rattle.worm_device.specs.Views.{Viewed};
ghost use Rattle.append_file.specs.Reading.{IsPosition};
ghost use Rattle.word_reader.specs.Matching.{HasPushed};
ghost use Rattle.document_store.specs.Looks.{HasPart};
ghost use Rattle.record_query.specs.Matching.{IsMatcherOf, KeepsTerms, PushNextEnds, SeekEnds, SlotEnds, seek_fault_of};
ghost use Rattle.record_query.specs.declared.matching.SeekFault.TheVariants as seeks;

use crate::found::Match;
use cell_types::{Geometry, NoMemory, Refusal};
use document_store::{
    ContentFault, Head, Part, Position, ROW_BYTES, head_of_row, identifier_of_head, name_commit,
    next_row,
};
use std::alloc::Global;
use word_reader::Matcher;
use worm_device::View;

/// Why words were not sought in a document.
#[derive(Clone, Copy, Debug, PartialEq, Eq)]
pub(crate) enum SeekFault {
    /// The part spells no document.
    Broken,
    /// A read failed.
    ReadFault,
    /// No memory was to be had.
    NoMemory(NoMemory),
}

impl From<ContentFault> for SeekFault {
    ghost from_gives = { λ fault result. result ≡ seek_fault_of fault };

    fn from(fault: ContentFault) -> SeekFault {
        match fault {
            ContentFault::Broken => SeekFault::Broken,
            ContentFault::ReadFault => SeekFault::ReadFault,
        }
    }
}

impl From<NoMemory> for SeekFault {
    ghost from_gives = { λ lack result. result ≡ seeks.NoMemory lack };

    fn from(lack: NoMemory) -> SeekFault {
        SeekFault::NoMemory(lack)
    }
}

/// The match in the part of a slot's document, if it has each term of the matcher, by the volume's rule of words. Its
/// bytes go through the row.
pub(crate) fn match_part<V: View>(
    alloc: Global,
    view: &mut V,
    geometry: &Geometry,
    part: &Part,
    matcher: &mut Matcher,
    row: &mut [u8; ROW_BYTES],
) -> Result<Option<Match>, Refusal>
    requires size { geometry.now.cells ≤ (V.seen view.old).cells }
    requires part { HasPart geometry.now (V.seen view.old) part.now }
    ensures viewed { Viewed (V.seen view.old) (V.seen view.new) }
    ensures reads { (V.seen view.new).base.reads ≤ (V.seen view.old).base.reads + cells_for part.now.bytes }
    ensures matcher { KeepsTerms matcher.old matcher.new }
    ensures ends { (terms : List (List ℕ)) → IsMatcherOf (rule_of geometry.now.version) terms matcher.old
        → SlotEnds geometry.now part.now.slot terms (V.seen view.old) (V.seen view.new) result }
{
    let found = match seek(view, part.start, part.bytes, matcher, row) {
        Ok(found) => found,
        Err(SeekFault::Broken) => return Err(Refusal::from(name_commit(geometry, part))),
        Err(SeekFault::ReadFault) => return Err(Refusal::DeviceFault),
        Err(SeekFault::NoMemory(lack)) => return Err(Refusal::from(lack)),
    };
    let Some(head) = found else {
        return Ok(None);
    };
    let identifier = identifier_of_head(alloc, &head)?;
    Ok(Some(Match {
        slot: part.slot,
        identifier,
        bytes: head.body_length,
    }))
}

/// Reads a document, each cell of it once, and answers its head where each term of the matcher is among its words.
fn seek<V: View>(
    view: &mut V,
    start: u32,
    bytes: u32,
    matcher: &mut Matcher,
    row: &mut [u8; ROW_BYTES],
) -> Result<Option<Head>, SeekFault>
    requires { start + cells_for bytes ≤ (V.seen view.old).cells }
    ensures viewed { Viewed (V.seen view.old) (V.seen view.new) }
    ensures reads { (V.seen view.new).base.reads ≤ (V.seen view.old).base.reads + cells_for bytes }
    ensures matcher { KeepsTerms matcher.old matcher.new }
    ensures ends { SeekEnds start bytes (V.seen view.old) (V.seen view.new) matcher.old result }
{
    forget_document(matcher);
    let mut position = Position::new(start, bytes);
    // All that stands before a body has room in a row.
    let first = next_row(view, &mut position, row)?;
    let front = &row[..first];
    let Some(head) = head_of_row(bytes, front) else {
        return Err(SeekFault::Broken);
    };
    let before = 1 + usize::from(head.id_length);
    matcher.push_all(&front[before..])?;
    let mut count = (first - before) as u32;
    while count < head.body_length {
        count += push_next(view, &mut position, matcher, row)?;
    }
    let matched = matcher.finish()?;
    if matched {
        return Ok(Some(head));
    }
    Ok(None)
}

/// Makes the matcher ready for a document: it holds the words of the one before.
fn forget_document(matcher: &mut Matcher)
    ensures { (rule : WordRule) (terms : List (List ℕ)) → IsMatcherOf rule terms matcher.old
        → HasPushed matcher.new rule terms [] }
{
    matcher.clear();
}

/// Reads the next bytes of a part that has one more, pushes them, and answers how many they are.
fn push_next<V: View>(
    view: &mut V,
    position: &mut Position,
    matcher: &mut Matcher,
    row: &mut [u8; ROW_BYTES],
) -> Result<u32, SeekFault>
    requires is { IsPosition position.old }
    requires inside { position.old.start + cells_for position.old.bytes ≤ (V.seen view.old).cells }
    ensures is { IsPosition position.new }
    ensures bytes { position.new.bytes ≡ position.old.bytes }
    ensures viewed { Viewed (V.seen view.old) (V.seen view.new) }
    ensures reads { (V.seen view.new).base.reads + position.old.read
        ≤ (V.seen view.old).base.reads + position.new.read }
    ensures matcher { KeepsTerms matcher.old matcher.new }
    ensures ends { PushNextEnds (V.seen view.old) (V.seen view.new) position.old position.new matcher.old matcher.new
        result }
{
    let count = next_row(view, position, row)?;
    matcher.push_all(&row[..count])?;
    Ok(count as u32)
}
