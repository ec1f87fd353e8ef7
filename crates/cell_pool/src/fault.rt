//! Why an entry is not inserted.
ghost use Rattle.std.specs.Prelude.{◌≡◌, ⊤};
ghost use Rattle.cell_pool.specs.Faults.{refusal_of_growth};
ghost use Rattle.cell_pool.specs.declared.fault.GrowthFault.TheVariants as growth;

use cell_types::{Fault, NoMemory, Refusal};

/// An entry of an index was not inserted, and what was planned for it is given up.
#[derive(Clone, Copy, Debug, PartialEq, Eq)]
pub enum GrowthFault {
    /// A call of the device failed, or a written cell breaks a rule.
    Fault(Fault),
    /// No memory was to be had.
    NoMemory(NoMemory),
}

impl From<Fault> for GrowthFault {
    ghost from_gives = { λ fault result. result ≡ growth.Fault fault };

    fn from(fault: Fault) -> GrowthFault {
        GrowthFault::Fault(fault)
    }
}

impl From<NoMemory> for GrowthFault {
    ghost from_gives = { λ lack result. result ≡ growth.NoMemory lack };

    fn from(lack: NoMemory) -> GrowthFault {
        GrowthFault::NoMemory(lack)
    }
}

impl From<GrowthFault> for Refusal {
    ghost from_gives = { λ fault refusal. refusal ≡ refusal_of_growth fault };

    fn from(fault: GrowthFault) -> Refusal {
        match fault {
            GrowthFault::Fault(fault) => Refusal::from(fault),
            GrowthFault::NoMemory(lack) => Refusal::from(lack),
        }
    }
}
