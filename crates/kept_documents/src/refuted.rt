//! What a fault of a look says of what is asked for.
ghost use Rattle.kept_documents.specs.Trails.{IsRefuted};

use cell_types::Fault;
use worm_device::Failed;

/// A cell that is out of order ends the way: the answer is no. A read that failed answers nothing.
pub(crate) fn refuted(fault: Fault) -> Result<bool, Failed>
    ensures { IsRefuted fault result }
{
    match fault {
        Fault::Tampered(_) => Ok(false),
        Fault::Failed => Err(Failed),
    }
}
