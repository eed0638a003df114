//! The law of calls up to their Decide. The function does nothing; its contract is the law.

ghost use Rattle.xsi_calls.specs.UndecidedLaws.{HaveFewSteps};

use crate::question_laws::questions_have_few_steps;

/// A call that has just begun has few steps left until it can decide.
pub fn calls_decide_in_few_steps()
    ensures { HaveFewSteps }
{
    questions_have_few_steps();
}
