//! The lower of two findings, and what lies behind one.
ghost use Rattle.std.specs.Prelude.{◌≡◌, ◌↔◌, IsTrue};
ghost use Rattle.log_audit.specs.Least.{LiesBehind, lower_finding};

use cell_types::Evidence;

/// The finding at the lower cell; where one check found nothing, that of the other.
pub fn lower_of(one: Option<Evidence>, other: Option<Evidence>) -> Option<Evidence>
    ensures { result ≡ lower_finding one other }
{
    let Some(first) = one else {
        return other;
    };
    let Some(second) = other else {
        return Some(first);
    };
    if first.cell <= second.cell {
        return Some(first);
    }
    Some(second)
}

/// Whether a cell lies behind what was found. Nothing that is broken there is the least.
pub fn lies_behind(found: &Option<Evidence>, cell: u32) -> bool
    ensures { IsTrue result ↔ LiesBehind found.now cell }
{
    let Some(least) = found else {
        return false;
    };
    least.cell < cell
}
