//! What a crash in the middle of settling leaves of the slot that is ended. The law is a function that does nothing and
//! whose contract is its sentence.
ghost use Rattle.recovery_engine.specs.CrashLaws.{SettlingKeepsStates};

/// Once the first sync was made, the slot is in its state still, or in the one that ends it.
pub fn settling_keeps_states()
    ensures { SettlingKeepsStates }
{}
