//! What a text says, and that it says one thing.
ghost use Rattle.script_events.specs.Scripts.{ScriptsAreInLimits, TextsAreOneScript};

/// What a text says is within the limits of scripts: so its events are such on a device of its cells.
#[tactic(auto, using(crate::proofs::WithinLimits::scripts_are_in_limits))]
pub fn scripts_are_in_limits()
    ensures { ScriptsAreInLimits }
{}

/// A text is one script at most, none where it has a fault, and it has one fault at most.
#[tactic(auto, using(crate::proofs::OneScript::texts_are_one_script))]
pub fn texts_are_one_script()
    ensures { TextsAreOneScript }
{}
