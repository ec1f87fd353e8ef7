//! The cells of the trails of a document's postings.
ghost use Rattle.std.specs.Prelude.{◌≡◌, ◌<◌, ◌≤◌};
ghost use Rattle.cell_types.specs.Layout.{all_lists};
ghost use Rattle.term_tags.specs.Listing.{MayHaveStamp};
ghost use Rattle.kept_documents.specs.Postings.{AreOfLists};
ghost use Rattle.receipt_cells.specs.Postings.{ListsPostings, ListsRow, ListsRows};

use crate::trails::list_trail;
use cell_types::{Geometry, Refusal, Volume};
use kept_documents::AskFault;
use receipt_text::ListedCells;
use std::alloc::Global;
use term_tags::{ListedPosting, document_postings};
use volume_meaning::rule_of;
use word_reader::words;
use worm_device::View;

/// Lists the cells of the trails of the postings of a slot's document, which has this stamp.
pub(crate) fn list_postings<V: View>(
    alloc: Global,
    view: &mut V,
    volume: &Volume,
    slot: u32,
    body: &[u8],
    stamp: Option<u32>,
    listed: &mut ListedCells,
) -> Result<(), AskFault>
    requires slot { slot < volume.now.geometry.slots }
    requires size { volume.now.geometry.cells ≤ (V.seen view.old).cells }
    requires stamp { MayHaveStamp volume.now.geometry stamp }
    ensures { ListsPostings volume.now.geometry slot body.now stamp (V.seen view.old) (V.seen view.new) listed.old
        listed.new result }
{
    // Known of a layout once it is asked for: its limits.
    let _slots = volume.geometry.slots();
    let terms = words(alloc, body, rule_of(volume.geometry.version()))?;
    let rows = match document_postings(alloc, &terms, volume.geometry.lists(), slot, stamp) {
        Ok(rows) => rows,
        // Then the document is not kept.
        Err(Refusal::TooManyTerms { .. }) => return Ok(()),
        // Nothing else is refused but for want of memory.
        Err(refusal) => return Err(AskFault::NoMemory(refusal.lack())),
    };
    list_rows(view, &volume.geometry, &rows, listed)
}

/// Lists the cells of the trails of these postings.
fn list_rows<V: View>(
    view: &mut V,
    geometry: &Geometry,
    rows: &[ListedPosting],
    listed: &mut ListedCells,
) -> Result<(), AskFault>
    requires size { geometry.now.cells ≤ (V.seen view.old).cells }
    requires lists { AreOfLists (all_lists geometry.now) rows.now }
    ensures { ListsRows geometry.now rows.now (V.seen view.old) (V.seen view.new) listed.old listed.new result }
{
    for row in rows {
        if let Err(why) = list_row(view, geometry, row, listed) {
            return Err(why);
        }
    }
    Ok(())
}

/// Lists the cells of one posting's trail.
fn list_row<V: View>(
    view: &mut V,
    geometry: &Geometry,
    row: &ListedPosting,
    listed: &mut ListedCells,
) -> Result<(), AskFault>
    requires size { geometry.now.cells ≤ (V.seen view.old).cells }
    requires list { row.now.list < all_lists geometry.now }
    ensures { ListsRow geometry.now row.now (V.seen view.old) (V.seen view.new) listed.old listed.new result }
{
    list_trail(
        view,
        geometry.pool_at(),
        geometry.list_at(row.list()),
        row.posting(),
        listed,
    )
}
