//! What the cells of a node hold.
ghost use Rattle.std.specs.Prelude.{◌<◌};
ghost use Rattle.kept_documents.specs.NodeCells.{AsksBucketCell, AsksChildCell, IsChildOf};

use cell_types::RecordCell;
use volume_meaning::HeldBucket;
use worm_device::{Failed, Found, View, look};

/// The bucket in a cell, `None` where it holds none.
pub fn bucket_at<V: View>(view: &mut V, at: u32) -> Result<Option<HeldBucket>, Failed>
    requires { at < (V.seen view.old).cells }
    ensures { AsksBucketCell at (V.seen view.old) (V.seen view.new) result }
{
    let seen = look(view, at)?;
    match seen {
        Found::Blank => Ok(None),
        Found::Stray(_found) => Ok(None),
        Found::Record(_found, held) => Ok(HeldBucket::of(held)),
    }
}

/// Where the child cell in a cell leads, `None` where it holds none.
pub fn child_at<V: View>(view: &mut V, at: u32) -> Result<Option<u32>, Failed>
    requires { at < (V.seen view.old).cells }
    ensures { AsksChildCell at (V.seen view.old) (V.seen view.new) result }
{
    let seen = look(view, at)?;
    match seen {
        Found::Blank => Ok(None),
        Found::Stray(_found) => Ok(None),
        Found::Record(_found, held) => Ok(child_of(held)),
    }
}

/// Where the child cell leads that this record is.
fn child_of(held: RecordCell) -> Option<u32>
    ensures { IsChildOf held result }
{
    let RecordCell::Child { target } = held else {
        return None;
    };
    Some(target)
}
