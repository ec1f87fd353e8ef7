//! The blocks of lists, their entries and trails.
ghost use Rattle.std.specs.Prelude.{◌≡◌, IfNone, IfOk, IfSome, Some};
ghost use Rattle.list_audit.specs.Blocks.{AreBlocksForTwo, AreListBlocks};
ghost use Rattle.list_audit.specs.Owed.{IsAllOwed};
ghost use Rattle.log_audit.specs.KeptVolumes.{FindsIn, IsStated, KeepsBelow, image_in};
ghost use Rattle.log_audit.specs.Findings.{FindsBroken};
ghost use Rattle.log_audit.specs.Kept.{image_of_kept};
ghost use Rattle.tamper_rules.specs.Rules.{Entries, Postings, Trails};
ghost use Rattle.volume_meaning.specs.Blocks.{PostingFields, posting_record};
ghost use Rattle.volume_meaning.specs.Volumes.{Holds};

use cell_types::{Evidence, Geometry, NoMemory};
use host_ports::Meter;
use list_audit::{
    ListBlocks, OwedPostings, blocks_for_two, blocks_of, first_broken_entry, first_broken_posting,
    first_broken_trail, posting_at,
};
use log_audit::{KeptCells, KeptVolume};
use std::alloc::Global;
use volume_meaning::PostingFields;

/// `blocks_of`.
pub fn blocks_of_again(
    alloc: Global,
    kept: &KeptCells,
    geometry: &Geometry,
) -> Result<ListBlocks, NoMemory>
    ensures { IfOk result (λ blocks. AreListBlocks geometry.now (image_of_kept kept.now) blocks) }
{
    blocks_of(alloc, kept, geometry)
}

/// `blocks_for_two`.
pub fn blocks_for_two_again(
    alloc: Global,
    kept: &KeptCells,
    geometry: &Geometry,
) -> Result<ListBlocks, NoMemory>
    ensures { IfOk result (λ blocks. AreBlocksForTwo geometry.now (image_of_kept kept.now) blocks) }
{
    blocks_for_two(alloc, kept, geometry)
}

/// `first_broken_entry`.
pub fn broken_entry_again(
    kept: &KeptCells,
    geometry: &Geometry,
    blocks: &ListBlocks,
) -> Option<Evidence>
    requires { AreBlocksForTwo geometry.now (image_of_kept kept.now) blocks.now }
    ensures { FindsBroken geometry.now (image_of_kept kept.now) Entries result }
{
    first_broken_entry(kept, geometry, blocks)
}

/// `posting_at`.
pub fn posting_at_again(kept: &KeptCells, at: u32) -> Option<PostingFields>
    ensures some { IfSome result (λ p. Holds (image_of_kept kept.now) at (posting_record p)) }
    ensures none { IfNone result ((p : PostingFields) → Holds (image_of_kept kept.now) at (posting_record p) → ⊥) }
    ensures one { (p : PostingFields) → Holds (image_of_kept kept.now) at (posting_record p) → result ≡ Some p }
{
    posting_at(kept, at)
}

/// `first_broken_posting`.
pub fn broken_posting_again(
    alloc: Global,
    volume: &KeptVolume,
    blocks: &ListBlocks,
    owed: &OwedPostings,
) -> Result<Option<Evidence>, NoMemory>
    requires stated { IsStated volume.now }
    requires blocks { AreBlocksForTwo volume.now.geometry (image_in volume.now) blocks.now }
    requires owed { IsAllOwed volume.now owed.now }
    requires met { KeepsBelow volume.now 9 }
    ensures { IfOk result (λ found. FindsIn volume.now Postings found) }
{
    first_broken_posting(alloc, volume, blocks, owed)
}

/// `first_broken_trail`.
pub fn broken_trail_again<M: Meter>(
    alloc: Global,
    volume: &KeptVolume,
    owed: &OwedPostings,
    meter: &mut M,
) -> Result<Option<Evidence>, NoMemory>
    requires stated { IsStated volume.now }
    requires met { KeepsBelow volume.now 13 }
    requires owed { IsAllOwed volume.now owed.now }
    ensures { IfOk result (λ found. FindsIn volume.now Trails found) }
{
    first_broken_trail(alloc, volume, owed, meter)
}
