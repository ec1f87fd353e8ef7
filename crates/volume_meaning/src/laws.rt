//! Laws: what the definitions mean together, over all images. Each is a function that does nothing and whose
//! contract is the law.
ghost use Rattle.volume_meaning.specs.Documents.{DocumentsAreOne, DocumentsHoldOn, ListsAreOne, StandsHoldsOn};
ghost use Rattle.volume_meaning.specs.Laws.{SeenFurther, StampsAreOne};
ghost use Rattle.volume_meaning.specs.WordValues.{WordsByValue};
ghost use Rattle.volume_meaning.specs.Words.{WordsAreOne};

/// A document that stands in an image stands in each image that extends it.
pub fn stands_holds_on()
    ensures { StandsHoldsOn }
{}

/// A document of the volume in an image is one in each image that extends it.
pub fn documents_hold_on()
    ensures { DocumentsHoldOn }
{}

/// What was seen of slots between two images was seen between any that lie further apart.
pub fn seen_further()
    ensures { SeenFurther }
{}

/// A slot has one stamp.
pub fn stamps_are_one()
    ensures { StampsAreOne }
{}

/// A slot has one document.
pub fn documents_are_one()
    ensures { DocumentsAreOne }
{}

/// A body has one list of words, and reading it from its first byte on gives it.
pub fn words_are_one()
    ensures { WordsAreOne }
{}

/// What the rules of words make of a few bodies.
pub fn words_by_value()
    ensures { WordsByValue }
{}

/// A volume has one list of its documents.
pub fn lists_are_one()
    ensures { ListsAreOne }
{}
