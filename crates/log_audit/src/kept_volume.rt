//! A volume whose cells are kept, with its log.
ghost use Rattle.log_audit.specs.Kept.{image_of_kept};
ghost use Rattle.log_audit.specs.Logs.{IsLog};
ghost use Rattle.log_audit.specs.OneLog.{is_log_prop};

use crate::kept::KeptCells;
use crate::log::Log;
use cell_types::Geometry;

/// What rules 4 to 15 are checked over: the kept cells of a volume, where its parts lie, and the log that these cells have.
/// There is none whose log is another one.
#[derive(Drop)]
pub struct KeptVolume {
    pub kept: KeptCells,
    pub geometry: Geometry,
    pub log: Log,
    ghost is_log: { IsLog geometry (image_of_kept kept) log } by { is_log_prop geometry (image_of_kept kept) log },
}
