//! A law: what two commands promise together, over all devices.
ghost use Rattle.volume_commands.specs.Laws.{ReceiptsAreReady};

/// What `receipt` has put out, `check` has nothing against, on each device of this size that has grown since.
pub fn receipts_are_ready()
    ensures { ReceiptsAreReady }
{}
