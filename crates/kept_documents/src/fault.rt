//! Why a question is not answered.
ghost use Rattle.std.specs.Prelude.{◌≡◌};
ghost use Rattle.kept_documents.specs.declared.fault.AskFault.TheVariants as asks;

use cell_types::NoMemory;

/// Why a question is not answered.
#[derive(Clone, Copy, Debug, PartialEq, Eq)]
pub enum AskFault {
    /// A read failed.
    ReadFault,
    /// No memory was to be had.
    NoMemory(NoMemory),
}

impl From<NoMemory> for AskFault {
    ghost from_gives = { λ lack fault. fault ≡ asks.NoMemory lack };

    fn from(lack: NoMemory) -> AskFault {
        AskFault::NoMemory(lack)
    }
}
