//! Laws of the questions of calls. The functions do nothing; their contracts are the laws.

ghost use Rattle.xsi_calls.specs.QuestionLaws.{AskUnderNames, FilesAnswer, HaveFewSteps, WriteUnderNames};

/// A call asks for a record under that record's name, and whether an id was given out under the
/// name of its queue.
pub fn a_call_asks_under_its_names()
    ensures { AskUnderNames }
{}

/// In a file that agrees with a system as far as a call reads it, what stands at the key of a
/// question answers it as the system does.
pub fn what_stands_answers_a_question()
    ensures { FilesAnswer }
{}

/// A call that has asked all, and whose plan is not to do nothing, holds exactly the names that it
/// needs; each name under which it inserts and writes it holds Exclusive.
pub fn a_call_writes_under_names_that_it_holds()
    ensures { WriteUnderNames }
{}

/// A call that has just begun has few steps left until it has asked all.
pub fn questions_have_few_steps()
    ensures { HaveFewSteps }
{}
