//! Laws: what the definitions of the exercise say. Each is a function that does nothing and whose contract is the law.
ghost use Rattle.volume_exercise.specs.Telling.{TermsAreWords};

/// Documents are counted by their words.
pub fn terms_are_words()
    ensures { TermsAreWords }
{}
