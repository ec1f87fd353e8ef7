//! All documents that have the words which are sought.
ghost use Rattle.std.specs.Prelude.{◌≡◌, ◌≤◌, ◌+◌, ℕ, List, IfOk, length};
ghost use Rattle.volume_meaning.specs.Slots.{cells_for};
ghost use Rattle.volume_meaning.specs.Words.{rule_of};
ghost use Rattle.worm_device.specs.Views.{Viewed, seen_directly};
ghost use Rattle.zigzag_join.specs.Gathering.{GatheredRise};
ghost use Rattle.document_store.specs.Looks.{HasPart};
ghost use Rattle.posting_list.specs.Joins.{HaveParts, slots_of};
ghost use Rattle.record_query.specs.Among.{AmongEnds, ReadsEach, added};
ghost use Rattle.record_query.specs.Finding.{Searches};
ghost use Rattle.record_query.specs.Matching.{IsMatcherOf, KeepsTerms, SlotEnds};

use crate::common::common_parts;
use crate::found::Match;
use crate::matching::match_part;
use cell_types::{Geometry, NoMemory, Refusal, memory};
use document_store::{Part, ROW_BYTES};
use posting_list::{SoughtTerms, kept_are_owed};
use recovery_engine::settle;
use std::alloc::Global;
use volume_meaning::rule_of;
use word_reader::{Matcher, Term};
use worm_device::{Device, Direct};

/// What a find reads at most on a settled volume, besides what its terms and its candidates ask for.
pub const FIND_READS: u64 = 256;

/// What it reads at most for each term, and each document that Near counts and one more.
pub const TERM_READS: u64 = 49_152;

/// What it reads at most for each cell of a document that is a candidate.
pub const CELL_READS: u64 = 4;

/// Settles the volume, and answers each document that its index has under all of the terms and that has them, by the
/// volume's rule of words, by rising slot. The index says which documents are read: each cell of these is read once.
///
/// # Errors
///
/// `NotFormatted`, `NotAVolume` and `WrongSize` by cell 0; `Tampered` where a cell breaks a rule of the log (1, 2, 3, 5
/// and 6) or of the index (8, 9 and 10), or a document is broken (4); `DeviceFault`; `NoMemory`.
pub fn find<D: Device>(alloc: Global, device: &mut D, terms: &[Term]) -> Result<Vec<Match>, Refusal>
    requires some { 1 ≤ length terms.now }
    ensures { Searches terms.now (D.state device.old) (D.state device.new) result }
{
    kept_are_owed();
    let ready = settle(device)?;
    let rule = rule_of(ready.volume.geometry.version());
    let sought = SoughtTerms::new(alloc, &ready.volume, terms)?;
    let mut matcher = Matcher::new(alloc, terms, rule)?;
    let parts = common_parts(alloc, device, &ready, &sought)?;
    find_among(alloc, device, &ready.volume.geometry, &parts, &mut matcher)
}

/// The matches in the slots of a row, each given by where its document lies.
fn find_among<D: Device>(
    alloc: Global,
    device: &mut D,
    geometry: &Geometry,
    parts: &[Part],
    matcher: &mut Matcher,
) -> Result<Vec<Match>, Refusal>
    requires rise { GatheredRise (slots_of parts.now) }
    requires parts { HaveParts geometry.now (seen_directly (D.state device.old) 0) parts.now }
    requires size { geometry.now.cells ≤ (D.state device.old).cells }
    ensures viewed { Viewed (seen_directly (D.state device.old) 0) (seen_directly (D.state device.new) 0) }
    ensures reads { ReadsEach geometry.now (slots_of parts.now) (D.state device.old) (D.state device.new) }
    ensures ends { (terms : List (List ℕ)) → IsMatcherOf (rule_of geometry.now.version) terms matcher.old
        → AmongEnds geometry.now (slots_of parts.now) terms (D.state device.old) (D.state device.new) result }
{
    let mut matches = Vec::new(alloc);
    // One row for all documents, which is cleared once.
    let mut row = [0; ROW_BYTES];
    for place in 0..parts.len() {
        let part = parts[place];
        let found = match_on_device(alloc, device, geometry, &part, matcher, &mut row)?;
        keep(&mut matches, found)?;
    }
    Ok(matches)
}

/// The match in the part of a slot's document, on the device.
fn match_on_device<D: Device>(
    alloc: Global,
    device: &mut D,
    geometry: &Geometry,
    part: &Part,
    matcher: &mut Matcher,
    row: &mut [u8; ROW_BYTES],
) -> Result<Option<Match>, Refusal>
    requires size { geometry.now.cells ≤ (D.state device.old).cells }
    requires part { HasPart geometry.now (seen_directly (D.state device.old) 0) part.now }
    ensures viewed { Viewed (seen_directly (D.state device.old) 0) (seen_directly (D.state device.new) 0) }
    ensures reads { (D.state device.new).reads ≤ (D.state device.old).reads + cells_for part.now.bytes }
    ensures matcher { KeepsTerms matcher.old matcher.new }
    ensures ends { (terms : List (List ℕ)) → IsMatcherOf (rule_of geometry.now.version) terms matcher.old
        → SlotEnds geometry.now part.now.slot terms (seen_directly (D.state device.old) 0)
        (seen_directly (D.state device.new) 0) result }
{
    match_part(
        alloc,
        &mut Direct::new(device),
        geometry,
        part,
        matcher,
        row,
    )
}

/// Adds what was found.
fn keep(matches: &mut Vec<Match>, found: Option<Match>) -> Result<(), NoMemory>
    ensures { IfOk result (λ _. matches.new.items ≡ added found matches.old.items) }
{
    let Some(one) = found else {
        return Ok(());
    };
    memory::push(matches, one)?;
    Ok(())
}
