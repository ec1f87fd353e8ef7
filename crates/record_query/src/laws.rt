//! A law: what the words of the contract mean together, over all images.
ghost use Rattle.record_query.specs.Laws.{PathsHaveMates};

/// On a settled volume the documents that a look-up may have to read can be listed, and they are 64 at most.
pub fn a_path_has_mates()
    ensures { PathsHaveMates }
{}
