//! Laws: what the definitions mean together. Each is a function that does nothing and whose contract is the law.
ghost use Rattle.term_tags.specs.Listing.{TooManyIsOne};

/// At most one list is the lowest with too many tags of a body, and then the body has no postings.
pub fn too_many_is_one()
    ensures { TooManyIsOne }
{}
