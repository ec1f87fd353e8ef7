//! The postings of the time list, by rising stamp.
ghost use Rattle.std.specs.Prelude.{◌≡◌, ◌<◌, ◌≤◌, ◌+◌};
ghost use Rattle.cell_types.specs.Layout.{TakesStamps};
ghost use Rattle.jump_index.specs.Searches.{FindsGeq};
ghost use Rattle.posting_list.specs.Keeping.{KeepsSearch};
ghost use Rattle.posting_list.specs.Searches.{head_of, within};
ghost use Rattle.time_index.specs.Postings.{IsOfKey, NextPosting};

use cell_types::Fault;
use jump_block::Entry;
use jump_index::KeptSearch;
use posting_list::{Reach, find_in_list};
use worm_device::View;

/// The first entry of the time list at or past a stamp.
fn find_time<V: View>(
    view: &mut V,
    kept: &mut KeptSearch,
    reach: &Reach,
    seconds: u32,
) -> Result<Option<Entry>, Fault>
    requires size { reach.now.volume.geometry.cells ≡ (V.seen view.old).cells }
    requires stamped { TakesStamps reach.now.volume.geometry }
    requires kept { KeepsSearch (V.seen view.old) kept.old }
    ensures kept { KeepsSearch (V.seen view.new) kept.new }
    ensures finds { FindsGeq (within reach.now) (head_of reach.now reach.now.volume.geometry.lists) seconds
        (V.seen view.old) (V.seen view.new) result }
{
    let times = reach.volume.geometry.lists();
    find_in_list(view, kept, reach, times, seconds)
}

/// The first entry of the time list with a stamp of a span, and the one with a trail, where one with its stamp has that.
/// A first search finds the stamp. Somebody else may have added an entry with the same stamp, so a search for this very
/// stamp decides between the two. At most 8,192 reads.
pub(crate) fn next_posting<V: View>(
    view: &mut V,
    kept: &mut KeptSearch,
    reach: &Reach,
    from: u32,
    to: u32,
) -> Result<Option<Entry>, Fault>
    requires size { reach.now.volume.geometry.cells ≡ (V.seen view.old).cells }
    requires stamped { TakesStamps reach.now.volume.geometry }
    requires kept { KeepsSearch (V.seen view.old) kept.old }
    ensures kept { KeepsSearch (V.seen view.new) kept.new }
    ensures reads { (V.seen view.new).base.reads ≤ (V.seen view.old).base.reads + 8192 }
    ensures next { NextPosting reach.now from to (V.seen view.old) (V.seen view.new) result }
{
    let found = find_time(view, kept, reach, from)?;
    let Some(first) = found else {
        return Ok(None);
    };
    if first.key > to {
        return Ok(None);
    }
    if first.key == from {
        return Ok(Some(first));
    }
    let again = find_time(view, kept, reach, first.key)?;
    Ok(Some(of_key(first, again)))
}

/// The second of two entries where it has the key of the first, and else the first.
fn of_key(first: Entry, second: Option<Entry>) -> Entry
    ensures { IsOfKey first second result }
{
    match second {
        Some(same) if same.key == first.key => same,
        _ => first,
    }
}
