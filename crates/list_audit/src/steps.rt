//! One step of a posting's trail.
ghost use Rattle.std.specs.Prelude.{◌≡◌, ◌<◌, ◌≤◌, ◌+◌, ◌^◌, ◌↔◌, IsTrue};
ghost use Rattle.tamper_rules.specs.Rules.{Entries, Pointers};
ghost use Rattle.volume_meaning.specs.Nodes.{IsBlockOf};
ghost use Rattle.log_audit.specs.Kept.{image_of_kept};
ghost use Rattle.log_audit.specs.Findings.{IsMetAll};
ghost use Rattle.list_audit.specs.Trails.{IsPlaceOfKey, PlaceAnswers, StepAnswers};
ghost use Rattle.volume_meaning.specs.declared.blocks.TheConstants.{BLOCK_CELLS, ENTRY_PLACES};

use crate::held_posting::posting_at;
use crate::listed::ListBlock;
use crate::places::place_of;
use crate::targets::pointer_target;
use cell_types::Geometry;
use jump_block::span;
use log_audit::KeptCells;
use volume_meaning::{ENTRY_PLACES, PostingFields};

/// Where a posting's trail leads from a block.
#[derive(Clone, Copy, Debug, PartialEq, Eq)]
pub(crate) enum Step {
    /// The posting stands in the block.
    Found,
    /// It has no trail from the block.
    Missing,
    /// Its trail goes on from this block.
    On(u32),
}

/// Where the trail of a posting leads from a block of a list. Its key is looked for where the guess says first.
pub(crate) fn step_from(
    kept: &KeptCells,
    geometry: &Geometry,
    listed: &ListBlock,
    posting: &PostingFields,
    guess: u32,
) -> Step
    requires block { IsBlockOf geometry.now (image_of_kept kept.now) listed.now.list listed.now.block }
    requires entries { IsMetAll geometry.now (image_of_kept kept.now) Entries }
    requires pointers { IsMetAll geometry.now (image_of_kept kept.now) Pointers }
    ensures { StepAnswers geometry.now (image_of_kept kept.now) listed.now.list posting.now listed.now.block result }
{
    let _cells = geometry.cells();
    let block = listed.block;
    let place = place_of(kept, block, posting.key, guess);
    if place < u32::from(ENTRY_PLACES) {
        return step_at(kept, block, place, posting);
    }
    step_on(kept, geometry, listed, posting)
}

/// Where the trail of a posting leads from a block of lower keys alone, which is full of them.
fn step_on(
    kept: &KeptCells,
    geometry: &Geometry,
    listed: &ListBlock,
    posting: &PostingFields,
) -> Step
    requires block { IsBlockOf geometry.now (image_of_kept kept.now) listed.now.list listed.now.block }
    requires room { listed.now.block + BLOCK_CELLS ≤ 2 ^ 31 }
    requires full { IsPlaceOfKey (image_of_kept kept.now) listed.now.block posting.now.key ENTRY_PLACES }
    requires pointers { IsMetAll geometry.now (image_of_kept kept.now) Pointers }
    ensures { StepAnswers geometry.now (image_of_kept kept.now) listed.now.list posting.now listed.now.block result }
{
    let block = listed.block;
    let Some(greatest) = posting_at(kept, block + 127) else {
        unreachable!();
    };
    let keys = span(greatest.key, posting.key);
    let pointer = 127 + 15 * u32::from(keys.level) + u32::from(keys.digit);
    match pointer_target(kept, geometry, block + pointer) {
        Some(target) => Step::On(target),
        None => Step::Missing,
    }
}

/// Whether the posting stands at the place of its key.
fn step_at(kept: &KeptCells, block: u32, place: u32, posting: &PostingFields) -> Step
    requires room { block + BLOCK_CELLS ≤ 2 ^ 31 }
    requires inside { place < ENTRY_PLACES }
    ensures { PlaceAnswers (image_of_kept kept.now) block place posting.now result }
{
    let Some(held) = posting_at(kept, block + place) else {
        return Step::Missing;
    };
    if says_as(&held, posting) {
        return Step::Found;
    }
    Step::Missing
}

/// Whether both say the same.
fn says_as(held: &PostingFields, posting: &PostingFields) -> bool
    ensures { IsTrue result ↔ (held.now ≡ posting.now) }
{
    *held == *posting
}
