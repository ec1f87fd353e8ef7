//! Laws: what the words of the contracts mean together, over all images.
ghost use Rattle.document_store.specs.Standing.{SlotDocumentIsOne, HeldIsStanding, HeldStays};

/// A document that a slot holds stands, where cell 0 states the layout; and one that stands is held.
pub fn held_is_standing()
    ensures { HeldIsStanding }
{}

/// A document that is held goes on being held, whatever is written into blank cells.
pub fn held_stays()
    ensures { HeldStays }
{}

/// A slot holds one document.
pub fn held_is_one()
    ensures { SlotDocumentIsOne }
{}
