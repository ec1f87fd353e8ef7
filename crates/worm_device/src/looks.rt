//! A look at one cell: what stands there, as a record where it is one.
ghost use Rattle.std.specs.Prelude.{◌≡◌, ◌<◌, ◌≤◌, ◌+◌};
ghost use Rattle.worm_device.specs.Views.{Viewed};
ghost use Rattle.worm_device.specs.Looks.{LookEnds, ReadsRecord};

use crate::{Failed, View};
use cell_types::{Cell, Fault, RecordCell, breach, decode};

/// What stands in a cell.
#[derive(Clone, Copy)]
pub enum Found {
    /// Nothing.
    Blank,
    /// A record that is well-formed there.
    Record(Cell, RecordCell),
    /// Anything else.
    Stray(Cell),
}

/// Reads one cell.
pub fn look<V: View>(view: &mut V, at: u32) -> Result<Found, Failed>
    requires { at < (V.seen view.old).cells }
    ensures viewed { Viewed (V.seen view.old) (V.seen view.new) }
    ensures reads { (V.seen view.new).base.reads ≤ (V.seen view.old).base.reads + 1 }
    ensures ends { LookEnds at (V.seen view.old) (V.seen view.new) result }
{
    let Some(cell) = view.read(at)? else {
        return Ok(Found::Blank);
    };
    match decode(cell, at) {
        Some(held) => Ok(Found::Record(cell, held)),
        None => Ok(Found::Stray(cell)),
    }
}

/// A record that was read, and its sixteen bytes.
#[derive(Clone, Copy)]
pub struct ReadRecord {
    pub cell: Cell,
    pub held: RecordCell,
}

/// Reads one cell, in which nothing but a record may stand: `None` where it is blank. A written cell that is no
/// record is named with this rule.
pub fn record_at<V: View>(view: &mut V, at: u32, rule: u8) -> Result<Option<ReadRecord>, Fault>
    requires { at < (V.seen view.old).cells }
    ensures { ReadsRecord at rule (V.seen view.old) (V.seen view.new) result }
{
    match look(view, at)? {
        Found::Blank => Ok(None),
        Found::Stray(found) => Err(breach(rule, at, found)),
        Found::Record(cell, held) => Ok(Some(ReadRecord { cell, held })),
    }
}
