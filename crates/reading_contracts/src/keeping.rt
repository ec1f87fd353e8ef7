//! Whether a document is kept.
ghost use Rattle.std.specs.Prelude.{◌<◌, ◌≤◌, ◌+◌};
ghost use Rattle.volume_meaning.specs.declared.blocks.TheConstants.{BLOCK_CELLS};
ghost use Rattle.kept_documents.specs.Kept.{AsksKept};
ghost use Rattle.kept_documents.specs.Trails.{AsksTrail};

use kept_documents::{AskFault, has_trail, is_kept};
use std::alloc::Global;
use volume_meaning::PostingFields;
use worm_device::{Failed, View};

/// `is_kept`.
pub fn is_kept_again<V: View>(
    alloc: Global,
    view: &mut V,
    slot: u32,
    id: &[u8],
) -> Result<Option<u32>, AskFault>
    requires { 0 < (V.seen view.old).cells }
    ensures { AsksKept slot id.now (V.seen view.old) (V.seen view.new) result }
{
    is_kept(alloc, view, slot, id)
}

/// `has_trail`.
pub fn has_trail_again<V: View>(
    view: &mut V,
    pool: u32,
    head: u32,
    wanted: PostingFields,
) -> Result<bool, Failed>
    requires head { head + BLOCK_CELLS ≤ (V.seen view.old).cells }
    ensures { AsksTrail pool head wanted (V.seen view.old) (V.seen view.new) result }
{
    has_trail(view, pool, head, wanted)
}
