//! What the text of replies is, reply by reply.
ghost use Rattle.script_replies.specs.Lines.{OneLineEach};

/// One reply more is one line more.
#[tactic(auto, using(crate::proofs::OneByOne::one_line_each))]
pub fn one_line_each()
    ensures { OneLineEach }
{}
