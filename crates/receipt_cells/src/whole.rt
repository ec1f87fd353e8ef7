//! The cells that a document's being kept rests on.
ghost use Rattle.std.specs.Prelude.{◌<◌};
ghost use Rattle.kept_documents.specs.Kept.{KeepsDocument};
ghost use Rattle.receipt_cells.specs.Whole.{ListsDocument, ListsKept};

use crate::bodies::list_body;
use crate::cells::list_cell;
use crate::path::list_path;
use crate::slots::list_part;
use kept_documents::{AskFault, KeptDocument, kept_document};
use receipt_text::ListedCells;
use std::alloc::Global;
use worm_device::View;

/// Lists the cells that being kept rests on, of the document that is kept in this slot with this identifier. Answers
/// how many bytes its body has, `None` where none is kept: then, and at an error, the list counts for nothing.
///
/// # Errors
///
/// `ReadFault` where a read failed, and `NoMemory`.
pub fn list_kept<V: View>(
    alloc: Global,
    view: &mut V,
    slot: u32,
    id: &[u8],
    listed: &mut ListedCells,
) -> Result<Option<u32>, AskFault>
    requires { 0 < (V.seen view.old).cells }
    ensures { ListsKept slot id.now (V.seen view.old) (V.seen view.new) listed.old listed.new result }
{
    let kept = match kept_document(alloc, view, slot, id) {
        Ok(kept) => kept,
        Err(why) => return Err(why),
    };
    let Some(document) = kept else {
        return Ok(None);
    };
    // What is kept stays so: each cell that it rests on is there when it is listed.
    if let Err(why) = list_document(alloc, view, &document, id, listed) {
        return Err(why);
    }
    Ok(Some(document.bytes))
}

/// Lists the cells of a document that is kept and was read: of its own cells each is read once more, and its body is at
/// hand.
fn list_document<V: View>(
    alloc: Global,
    view: &mut V,
    document: &KeptDocument,
    id: &[u8],
    listed: &mut ListedCells,
) -> Result<(), AskFault>
    requires some { 0 < (V.seen view.old).cells }
    requires kept { KeepsDocument (V.seen view.old) document.now.part.slot id.now document.now }
    ensures { ListsDocument document.now.volume.geometry document.now.part.slot id.now (V.seen view.old)
        (V.seen view.new) listed.old listed.new result }
{
    let volume = &document.volume;
    let part = &document.part;
    if let Err(why) = list_cell(view, 0, listed) {
        return Err(why);
    }
    if let Err(why) = list_part(view, &volume.geometry, part, listed) {
        return Err(why);
    }
    if let Err(why) = list_body(
        alloc,
        view,
        volume,
        part.slot,
        document.body.bytes(),
        listed,
    ) {
        return Err(why);
    }
    list_path(view, volume, part.slot, id, listed)
}
