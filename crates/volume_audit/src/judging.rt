//! The rules, one after another: one that is broken is a refusal.
ghost use Rattle.std.specs.Prelude.{◌≡◌};
ghost use Rattle.volume_meaning.specs.Volumes.{IsVolume};
ghost use Rattle.log_audit.specs.Kept.{image_of_kept, count_of};
ghost use Rattle.log_audit.specs.KeptVolumes.{HasAllCells, IsStated, KeepsBelow, image_in};
ghost use Rattle.list_audit.specs.Blocks.{AreBlocksForTwo};
ghost use Rattle.list_audit.specs.Owed.{IsAllOwed};
ghost use Rattle.tree_audit.specs.Nodes.{AreNodes};
ghost use Rattle.volume_audit.specs.Judging.{Judges, Passes, RefusesFound};

use crate::report::{AuditReport, report_of};
use cell_types::{Evidence, Geometry, Refusal};
use host_ports::Meter;
use list_audit::{
    ListBlocks, OwedPostings, blocks_for_two, first_broken_entry, first_broken_posting,
    first_broken_trail, owed_postings,
};
use log_audit::{KeptCells, KeptVolume, check_log};
use slot_audit::{
    first_broken_document, first_broken_journal, first_broken_stray, first_broken_target,
    first_broken_tiling,
};
use std::alloc::Global;
use tree_audit::{
    TreeNodes, first_broken_bucket, first_broken_child, first_broken_path, first_broken_pointer,
    nodes_of,
};

/// The numbers of the volume whose cells are kept, or the least rule that is broken at its least cell.
pub(crate) fn judge<M: Meter>(
    alloc: Global,
    kept: KeptCells,
    geometry: Geometry,
    meter: &mut M,
) -> Result<AuditReport, Refusal>
    requires volume { IsVolume geometry.cells (image_of_kept kept) geometry }
    requires count { count_of kept ≡ geometry.cells }
    ensures { Judges geometry (image_of_kept kept) result }
{
    let log = check_log(alloc, &kept, &geometry)?;
    let volume = KeptVolume {
        kept,
        geometry,
        log,
    };
    check_slots(alloc, &volume)?;
    let blocks = blocks_for_two(alloc, &volume.kept, &volume.geometry)?;
    let nodes = nodes_of(alloc, &volume.kept, &volume.geometry)?;
    check_entries(&volume, &blocks)?;
    let owed = owed_postings(alloc, &volume, meter)?;
    check_index(alloc, &volume, &blocks, &nodes, &owed)?;
    check_reach(alloc, &volume, &owed, meter)?;
    Ok(report_of(&volume))
}

/// Rules 4 to 7: what the slots hold, and what stands astray.
fn check_slots(alloc: Global, volume: &KeptVolume) -> Result<(), Refusal>
    requires count { HasAllCells volume.now }
    requires met { KeepsBelow volume.now 4 }
    ensures { Passes volume.now.geometry (image_in volume.now) 8 result }
{
    check_documents(volume)?;
    check_journals(volume)?;
    check_targets(volume)?;
    check_strays(alloc, volume)
}

/// Rules 9 to 12: what stands in the lists and in the tree.
fn check_index(
    alloc: Global,
    volume: &KeptVolume,
    blocks: &ListBlocks,
    nodes: &TreeNodes,
    owed: &OwedPostings,
) -> Result<(), Refusal>
    requires stated { IsStated volume.now }
    requires count { HasAllCells volume.now }
    requires blocks { AreBlocksForTwo volume.now.geometry (image_in volume.now) blocks.now }
    requires nodes { AreNodes volume.now.geometry (image_in volume.now) nodes.now }
    requires owed { IsAllOwed volume.now owed.now }
    requires met { KeepsBelow volume.now 9 }
    ensures { Passes volume.now.geometry (image_in volume.now) 13 result }
{
    check_postings(alloc, volume, blocks, owed)?;
    check_pointers(volume, blocks, nodes)?;
    check_buckets(volume, nodes)?;
    check_children(volume, blocks, nodes)
}

/// Rules 13 to 15: that the index leads to each document, and takes no cells besides.
fn check_reach<M: Meter>(
    alloc: Global,
    volume: &KeptVolume,
    owed: &OwedPostings,
    meter: &mut M,
) -> Result<(), Refusal>
    requires stated { IsStated volume.now }
    requires count { HasAllCells volume.now }
    requires owed { IsAllOwed volume.now owed.now }
    requires met { KeepsBelow volume.now 13 }
    ensures { Passes volume.now.geometry (image_in volume.now) 16 result }
{
    check_trails(alloc, volume, owed, meter)?;
    check_paths(volume)?;
    check_tilings(alloc, volume)
}

/// Rule 4: the documents are whole.
fn check_documents(volume: &KeptVolume) -> Result<(), Refusal>
    requires count { HasAllCells volume.now }
    requires met { KeepsBelow volume.now 4 }
    ensures { Passes volume.now.geometry (image_in volume.now) 5 result }
{
    refuse(first_broken_document(volume))
}

/// Rule 5: the journals are in order.
fn check_journals(volume: &KeptVolume) -> Result<(), Refusal>
    requires met { KeepsBelow volume.now 5 }
    ensures { Passes volume.now.geometry (image_in volume.now) 6 result }
{
    refuse(first_broken_journal(volume))
}

/// Rule 6: what journals copy stands at its target.
fn check_targets(volume: &KeptVolume) -> Result<(), Refusal>
    requires met { KeepsBelow volume.now 6 }
    ensures { Passes volume.now.geometry (image_in volume.now) 7 result }
{
    refuse(first_broken_target(volume))
}

/// Rule 7: nothing stands where nothing is expected.
fn check_strays(alloc: Global, volume: &KeptVolume) -> Result<(), Refusal>
    requires count { HasAllCells volume.now }
    requires met { KeepsBelow volume.now 7 }
    ensures { Passes volume.now.geometry (image_in volume.now) 8 result }
{
    refuse(first_broken_stray(alloc, volume)?)
}

/// Rule 8: what stands in blocks is in order.
fn check_entries(volume: &KeptVolume, blocks: &ListBlocks) -> Result<(), Refusal>
    requires blocks { AreBlocksForTwo volume.now.geometry (image_in volume.now) blocks.now }
    requires met { KeepsBelow volume.now 8 }
    ensures { Passes volume.now.geometry (image_in volume.now) 9 result }
{
    refuse(first_broken_entry(&volume.kept, &volume.geometry, blocks))
}

/// Rule 9: the postings in blocks are those of documents.
fn check_postings(
    alloc: Global,
    volume: &KeptVolume,
    blocks: &ListBlocks,
    owed: &OwedPostings,
) -> Result<(), Refusal>
    requires stated { IsStated volume.now }
    requires blocks { AreBlocksForTwo volume.now.geometry (image_in volume.now) blocks.now }
    requires owed { IsAllOwed volume.now owed.now }
    requires met { KeepsBelow volume.now 9 }
    ensures { Passes volume.now.geometry (image_in volume.now) 10 result }
{
    refuse(first_broken_posting(alloc, volume, blocks, owed)?)
}

/// Rule 10: pointers lead where they should.
fn check_pointers(
    volume: &KeptVolume,
    blocks: &ListBlocks,
    nodes: &TreeNodes,
) -> Result<(), Refusal>
    requires blocks { AreBlocksForTwo volume.now.geometry (image_in volume.now) blocks.now }
    requires nodes { AreNodes volume.now.geometry (image_in volume.now) nodes.now }
    requires met { KeepsBelow volume.now 10 }
    ensures { Passes volume.now.geometry (image_in volume.now) 11 result }
{
    refuse(first_broken_pointer(volume, blocks, nodes))
}

/// Rule 11: buckets name the documents of their paths.
fn check_buckets(volume: &KeptVolume, nodes: &TreeNodes) -> Result<(), Refusal>
    requires stated { IsStated volume.now }
    requires count { HasAllCells volume.now }
    requires nodes { AreNodes volume.now.geometry (image_in volume.now) nodes.now }
    requires met { KeepsBelow volume.now 11 }
    ensures { Passes volume.now.geometry (image_in volume.now) 12 result }
{
    refuse(first_broken_bucket(volume, nodes))
}

/// Rule 12: child cells lead where they should.
fn check_children(
    volume: &KeptVolume,
    blocks: &ListBlocks,
    nodes: &TreeNodes,
) -> Result<(), Refusal>
    requires blocks { AreBlocksForTwo volume.now.geometry (image_in volume.now) blocks.now }
    requires nodes { AreNodes volume.now.geometry (image_in volume.now) nodes.now }
    requires met { KeepsBelow volume.now 12 }
    ensures { Passes volume.now.geometry (image_in volume.now) 13 result }
{
    refuse(first_broken_child(volume, blocks, nodes))
}

/// Rule 13: each posting of a document has a trail.
fn check_trails<M: Meter>(
    alloc: Global,
    volume: &KeptVolume,
    owed: &OwedPostings,
    meter: &mut M,
) -> Result<(), Refusal>
    requires stated { IsStated volume.now }
    requires owed { IsAllOwed volume.now owed.now }
    requires met { KeepsBelow volume.now 13 }
    ensures { Passes volume.now.geometry (image_in volume.now) 14 result }
{
    refuse(first_broken_trail(alloc, volume, owed, meter)?)
}

/// Rule 14: each document has its path, and no two have one identifier.
fn check_paths(volume: &KeptVolume) -> Result<(), Refusal>
    requires stated { IsStated volume.now }
    requires count { HasAllCells volume.now }
    requires met { KeepsBelow volume.now 14 }
    ensures { Passes volume.now.geometry (image_in volume.now) 15 result }
{
    refuse(first_broken_path(volume))
}

/// Rule 15: the blocks of each slot are those that its journal leads to.
fn check_tilings(alloc: Global, volume: &KeptVolume) -> Result<(), Refusal>
    requires met { KeepsBelow volume.now 15 }
    ensures { Passes volume.now.geometry (image_in volume.now) 16 result }
{
    refuse(first_broken_tiling(alloc, volume)?)
}

/// Ends the audit with what was found, if something was.
fn refuse(found: Option<Evidence>) -> Result<(), Refusal>
    ensures { RefusesFound found result }
{
    match found {
        Some(evidence) => Err(Refusal::Tampered(evidence)),
        None => Ok(()),
    }
}
