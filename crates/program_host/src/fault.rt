//! Why a command was not done, as a line and a status.
ghost use Rattle.std.specs.Prelude.{◌≡◌};
ghost use Rattle.program_host.specs.Faults.{fault_of, fault_of_copy};

use cell_types::{CopyRefusal, Refusal};
use thiserror::Error;

/// Why a command was not done. What it shows is the line that the program ends with.
#[derive(Clone, Copy, Debug, Error)]
pub enum Fault {
    /// The words are no command, or an IMAGE begins with a hyphen.
    #[error("usage: worm IMAGE format SLOTS LISTS [VERSION], ingest ID [SECONDS], find WORD.., lookup ID, audit, recover, replay, exercise N, between FROM TO, receipt ID, check, copy TARGET SLOTS LISTS")]
    Usage,
    /// A file that is no device, since it can't be opened or has no cell, or more than a device may have.
    #[error("image cannot be opened")]
    Image,
    /// A volume would be copied onto itself.
    #[error("target is the image itself")]
    SameFile,
    /// The command was refused.
    #[error(transparent)]
    Refused(Refusal),
    /// A copy was refused.
    #[error(transparent)]
    NotCopied(CopyRefusal),
}

impl From<Refusal> for Fault {
    ghost from_gives = { λ refusal fault. fault ≡ fault_of refusal };

    fn from(refusal: Refusal) -> Fault {
        match refusal {
            Refusal::Usage => Fault::Usage,
            refused => Fault::Refused(refused),
        }
    }
}

impl From<CopyRefusal> for Fault {
    ghost from_gives = { λ refusal fault. fault ≡ fault_of_copy refusal };

    fn from(refusal: CopyRefusal) -> Fault {
        match refusal {
            CopyRefusal::Usage => Fault::Usage,
            refused => Fault::NotCopied(refused),
        }
    }
}

impl Fault {
    /// The status that a program ends with, 1 to 11.
    pub fn status(&self) -> u8 {
        match self {
            Fault::Usage | Fault::SameFile => Refusal::Usage.status(),
            Fault::Image => Refusal::DeviceFault.status(),
            Fault::Refused(refusal) => refusal.status(),
            Fault::NotCopied(refusal) => refusal.status(),
        }
    }
}
