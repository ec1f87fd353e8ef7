//! The log, checked.
ghost use Rattle.log_audit.specs.Kept.{image_of_kept};
ghost use Rattle.log_audit.specs.Logs.{LogChecks};

use crate::broken::{first_broken_done, first_broken_outcome, first_broken_reserve};
use crate::kept::KeptCells;
use crate::log::{Log, log_of};
use cell_types::{Geometry, Refusal};
use std::alloc::Global;

/// The slots below the horizon, where rules 1 to 3 are kept and each of them has ended.
///
/// # Errors
///
/// `Tampered` with the least cell of the first of these rules that is broken, or with the reserve cell of a slot that has
/// not ended; `NoMemory`.
pub fn check_log(alloc: Global, kept: &KeptCells, geometry: &Geometry) -> Result<Log, Refusal>
    ensures { LogChecks geometry.now (image_of_kept kept.now) result }
{
    if let Some(reserve) = first_broken_reserve(kept, geometry) {
        return Err(Refusal::Tampered(reserve));
    }
    if let Some(outcome) = first_broken_outcome(kept, geometry) {
        return Err(Refusal::Tampered(outcome));
    }
    if let Some(done) = first_broken_done(kept, geometry) {
        return Err(Refusal::Tampered(done));
    }
    log_of(alloc, kept, geometry)
}
