//! A law: what the words of the contracts mean together, over all devices.
ghost use Rattle.receipt_check.specs.MakingLaws.{ReceiptsAreAccepted};

/// A receipt that was made is accepted on each image that extends the one when it was made.
pub fn receipts_are_accepted()
    ensures { ReceiptsAreAccepted }
{}
