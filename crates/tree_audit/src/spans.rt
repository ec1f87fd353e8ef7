//! Keys in the spans of pointers.
ghost use Rattle.std.specs.Prelude.{◌≡◌, ◌<◌, ◌≤◌, ◌+◌, ◌^◌, ◌↔◌, IsTrue};
ghost use Rattle.tamper_rules.specs.Rules.{Entries};
ghost use Rattle.volume_meaning.specs.Nodes.{IsBlockOf};
ghost use Rattle.log_audit.specs.Kept.{image_of_kept};
ghost use Rattle.log_audit.specs.Findings.{IsMetAll};
ghost use Rattle.tree_audit.specs.Leading.{HasKeyBetween, IsInSpan};
ghost use Rattle.volume_meaning.specs.declared.blocks.TheConstants.{BLOCK_CELLS};

use cell_types::Geometry;
use list_audit::{ListBlock, posting_at};
use log_audit::KeptCells;
use volume_meaning::ENTRY_PLACES;

/// Whether the block is full, and some key of the target's front lies in the span of its pointer of this level and digit.
pub(crate) fn is_in_span(
    kept: &KeptCells,
    _geometry: &Geometry,
    listed: &ListBlock,
    level: u32,
    digit: u32,
    target: u32,
) -> bool
    requires entries { IsMetAll _geometry.now (image_of_kept kept.now) Entries }
    requires block { IsBlockOf _geometry.now (image_of_kept kept.now) listed.now.list listed.now.block }
    requires target { IsBlockOf _geometry.now (image_of_kept kept.now) listed.now.list target }
    requires room { listed.now.block + BLOCK_CELLS ≤ 2 ^ 31 }
    requires space { target + BLOCK_CELLS ≤ 2 ^ 31 }
    requires level { level < 8 }
    requires some { 1 ≤ digit }
    requires digit { digit ≤ 15 }
    ensures { IsTrue result ↔ IsInSpan (image_of_kept kept.now) listed.now.block level digit target }
{
    let Some(greatest) = posting_at(kept, listed.block + 127) else {
        return false;
    };
    let width = span_width(level);
    let low = u64::from(greatest.key) + u64::from(digit) * width;
    has_key_between(kept, target, low, low + width)
}

/// How many keys a span of this level has: 16 to its power.
fn span_width(level: u32) -> u64
    requires { level < 8 }
    ensures is { result ≡ 16 ^ level }
    ensures most { result ≤ 16 ^ 7 }
{
    match level {
        0 => 1,
        1 => 0x10,
        2 => 0x100,
        3 => 0x1000,
        4 => 0x1_0000,
        5 => 0x10_0000,
        6 => 0x100_0000,
        _ => 0x1000_0000,
    }
}

/// Whether a posting with a key from `low` on and below `high` stands in an entry place of a block.
fn has_key_between(kept: &KeptCells, block: u32, low: u64, high: u64) -> bool
    requires { block + BLOCK_CELLS ≤ 2 ^ 31 }
    ensures { IsTrue result ↔ HasKeyBetween (image_of_kept kept.now) block low high }
{
    for place in 0..u32::from(ENTRY_PLACES) {
        let Some(posting) = posting_at(kept, block + place) else {
            continue;
        };
        let key = u64::from(posting.key);
        if key < low {
            continue;
        }
        if key < high {
            return true;
        }
    }
    false
}
