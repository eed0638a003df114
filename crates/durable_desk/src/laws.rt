//! What a durable desk comes to over all that is done with it. The functions do nothing; their
//! contracts are the laws.

ghost use Rattle.durable_desk.specs.History.{AllOutlastACrash, NoneIsLost, OpensUpToDate};
ghost use Rattle.durable_desk.specs.Opening.{MakesReady};

use desk::a_desk_answers_by_the_rules;
use desk::session::queue_model::refusals_leave_the_system;
use safe_device::PagePair;

/// Over any list of what is done, also of commits that are cut short or fail: whatever a crash
/// leaves at any moment is recovered to pages and calls that come to a system to which calls had
/// led that were answered, each by the rules, from the first on, with all that were answered before
/// the last commit that was Ok. So an answer that is told only behind a commit is never lost.
pub fn what_is_committed_outlasts_a_crash<P: PagePair>()
    ensures opened { OpensUpToDate P P.is_honest P.may_leave }
    ensures outlasts { AllOutlastACrash P P.is_honest P.moment P.left_since P.may_leave }
    ensures committed { NoneIsLost P P.is_honest P.moment P.left_since P.may_leave }
{
    a_desk_answers_by_the_rules();
    refusals_leave_the_system();
}

/// A device over a file that was recovered may be opened.
pub fn a_recovered_file_is_ready<P: PagePair>()
    ensures { MakesReady P P.is_honest P.file P.journal P.may_leave }
{}
