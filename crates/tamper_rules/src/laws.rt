//! Laws: what the definitions mean together, over all images. Each is a function that does nothing and whose
//! contract is the law.
ghost use Rattle.tamper_rules.specs.SettlingLaws.{AfterIsOne, DocumentsExist, EdgeIsOne, FormattedIsSettled, HeldGrows, HeldIsOne, SettledIsUnbroken, SettledKeeps, SettlingGoesOn, SteadyHoldsTwo};

/// A settled image has one horizon and one edge.
pub fn edge_is_one()
    ensures { EdgeIsOne }
{}

/// A settled image keeps its documents.
pub fn settled_keeps()
    ensures { SettledKeeps }
{}

/// Settling, cut short anywhere, is made up for by settling again.
pub fn settling_goes_on()
    ensures { SettlingGoesOn }
{}

/// Settling makes one image of an image.
pub fn after_is_one()
    ensures { AfterIsOne }
{}

/// No rule is broken in a settled image.
pub fn settled_is_unbroken()
    ensures { SettledIsUnbroken }
{}

/// A volume cell alone is settled.
pub fn formatted_is_settled()
    ensures { FormattedIsSettled }
{}

/// A settled image has a list of its documents.
pub fn documents_exist()
    ensures { DocumentsExist }
{}

/// An image holds one list of documents.
pub fn held_is_one()
    ensures { HeldIsOne }
{}

/// Of two images that are blank or sound, the documents that the earlier one holds are the first ones of the later.
pub fn held_grows()
    ensures { HeldGrows }
{}

/// Where each image that a crash may leave is blank or sound, it holds the documents of the least or those of the
/// greatest.
pub fn steady_holds_two()
    ensures { SteadyHoldsTwo }
{}
