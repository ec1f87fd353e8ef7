//! What the program answers, by how a command ended and whether its text could be shown.
ghost use Rattle.std.specs.Prelude.{◌≡◌};
ghost use Rattle.program.specs.OneFile.{answer_of};
ghost use Rattle.program.specs.TwoFiles.{answer_of_copy};

use cell_types::{CopyRefusal, Refusal, memory};
use host_ports::Failed;
use program_host::Fault;
use record_top::Outcome;

/// What the program answers where a command over a file ended so, and its text was shown or could not be.
pub(crate) fn answer_of(done: Outcome, shown: Result<(), Failed>) -> Result<(), Fault>
    ensures { result ≡ answer_of done shown }
{
    match done {
        Ok(()) => match shown {
            Ok(()) => Ok(()),
            Err(_) => Err(Fault::Refused(Refusal::SinkFault)),
        },
        // The text is in memory: nothing else keeps it back.
        Err(Refusal::SinkFault) => Err(Fault::from(Refusal::from(memory::lacked_elsewhere()))),
        Err(refusal) => Err(Fault::from(refusal)),
    }
}

/// The same of a copy.
pub(crate) fn answer_of_copy(
    done: Result<(), CopyRefusal>,
    shown: Result<(), Failed>,
) -> Result<(), Fault>
    ensures { result ≡ answer_of_copy done shown }
{
    match done {
        Ok(()) => match shown {
            Ok(()) => Ok(()),
            Err(_) => Err(Fault::Refused(Refusal::SinkFault)),
        },
        Err(CopyRefusal::SinkFault) => {
            Err(Fault::from(Refusal::from(memory::lacked_elsewhere())))
        }
        Err(refusal) => Err(Fault::from(refusal)),
    }
}
