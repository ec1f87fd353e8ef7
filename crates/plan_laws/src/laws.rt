//! Laws: what the definitions mean together. Each is a function that does nothing and whose contract is the law.
ghost use Rattle.plan_laws.specs.Laws.{AnswerIsNeed, AnswerIsWell, PlanIsWell};

/// A document's index that was planned on a settled volume is well made.
pub fn plan_is_well()
    ensures { PlanIsWell }
{}

/// And so is what planning answers.
pub fn answer_is_well()
    ensures { AnswerIsWell }
{}

/// A document and its index that was planned for it take the document's need.
pub fn answer_is_need()
    ensures { AnswerIsNeed }
{}
