//! Laws of the postings of documents.
ghost use Rattle.volume_meaning.specs.Nearness.{NearIsOne};
ghost use Rattle.volume_meaning.specs.OnePostings.{KeysFit, PostingsAreOne, StampsAddOne};

/// A slot's document has one list of postings.
pub fn postings_are_one()
    ensures { PostingsAreOne }
{}

/// A stamp adds one posting, behind those of the words.
pub fn stamps_add_one()
    ensures { StampsAddOne }
{}

/// A posting's key modulo 256 is at most the greatest ordinal that it tells.
pub fn keys_fit()
    ensures { KeysFit }
{}

/// Terms have one least number of documents that share a list with one of them.
pub fn near_is_one()
    ensures { NearIsOne }
{}
