//! A law: what the words of the contract mean together, over all devices.
ghost use Rattle.receipt_check.specs.Holding.{ReceiptsHoldOn};

/// A receipt that shows a document is accepted wherever its cells stand.
pub fn receipts_hold_on()
    ensures { ReceiptsHoldOn }
{}
