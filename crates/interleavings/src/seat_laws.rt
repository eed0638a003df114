//! Laws of a seat beside the others. The functions do nothing; their contracts are the laws.

ghost use Rattle.interleavings.specs.AlikeLaws.{CountsWhileAlive, GivesOutNext, KeepsAliveUnderCounter, OthersLeadAlike};
ghost use Rattle.interleavings.specs.DecisionLaws.{BeginApart, BehindApart, GoesOver, HoldApart, IdsAreGivenOutUnderNames, LeavesWhatItDoesNotWrite, OthersAnswer, OthersDecide, OthersSweep, StaysApart, StepsApart, StopsBeside, TryApart};
ghost use Rattle.interleavings.specs.SeatLaws.{AskUnderNames, AsksUnderNewNames, CountsForOthers, LeaveWhatTheyRead, NamesAreApart, OthersLeave, PayUnderNames, PaysOn, RecordsStay, SeesBehind, SeesOn, StaysUndecided};

/// A step of another seat leaves a seat what it holds and knows, and the records whose names it
/// holds; and so each record whose name the other does not hold Exclusive. The seat sees what it
/// saw, and after a step of its own what it knows then.
pub fn a_seat_sees_what_it_saw()
    ensures leaves { OthersLeave }
    ensures reads { LeaveWhatTheyRead }
    ensures sees { SeesOn }
    ensures own { SeesBehind }
{}

/// What a call holds no other seat holds Exclusive; so the records under its names stay as others
/// write.
pub fn no_other_writes_under_a_calls_names()
    ensures pays { PayUnderNames }
    ensures asks { AskUnderNames }
    ensures apart { NamesAreApart }
    ensures records { RecordsStay }
{}

/// A call that pays beside a step of another seat pays on, over any records that are the same under
/// its names.
pub fn a_payment_goes_on()
    ensures { PaysOn }
{}

/// A call that has not decided asks and tries on beside a step of another seat, as long as the
/// file's Counter tells of the ids whose names it holds what the system does; that does so where it
/// has the next id, and where another call has made the queue of its id and is still to count it.
/// It asks on after its own step where under its names there stand the records of the system.
pub fn a_call_stays_undecided()
    ensures stays { StaysUndecided }
    ensures counts { CountsForOthers }
    ensures own { AsksUnderNewNames }
{}

/// It goes over to each system that it can't tell from the one that it asks about: to one that
/// another call leads to, which writes under none of its names, and to one that was stopped.
pub fn a_call_goes_over_to_what_others_decide()
    ensures over { GoesOver }
    ensures decided { OthersDecide }
    ensures stopped { StopsBeside }
{}

/// A call that is settled and writes nothing leaves the system. Where it writes it holds the names
/// Exclusive under which it does; so the other calls go over to the system after it.
pub fn a_call_goes_over_to_what_others_settle()
    ensures idle { LeavesWhatItDoesNotWrite }
    ensures answers { OthersAnswer }
    ensures sweeps { OthersSweep }
{}

/// A call that is answered leaves the next id, or has made a queue of it, whose name it holds
/// Exclusive.
pub fn an_id_is_given_out_under_its_name()
    ensures { IdsAreGivenOutUnderNames }
{}

/// Others leave what it knows to a call that has just begun, to one that holds exactly the names
/// which it needs, among which is that of the queue, or of the key, that it was given, and to one
/// on trial.
pub fn others_leave_what_a_call_knows()
    ensures begins { BeginApart }
    ensures holds { HoldApart }
    ensures tries { TryApart }
{}

/// A call that has not decided others leave what it knows: it has come so far by its own steps, and
/// while it asks it gives no name back, but a Remove between its phases, where it knows its queue's
/// key alone. So they do after each of its steps.
pub fn a_call_stays_apart_by_its_own_steps()
    ensures stays { StaysApart }
    ensures behind { BehindApart }
    ensures steps { StepsApart }
{}

/// A call goes over to each system that an answer to another leads to, where the records under its
/// names are the same.
pub fn a_call_goes_over_where_its_records_stay()
    ensures { OthersLeadAlike }
{}

/// An answer leaves the next id or gives it out, and then the queue of that id is there. As long as
/// it is, a file that is still to count it counts for each call. An answer that leaves the Counter
/// leaves each queue there.
pub fn a_queue_is_counted_while_it_is_alive()
    ensures gives { GivesOutNext }
    ensures counts { CountsWhileAlive }
    ensures stays { KeepsAliveUnderCounter }
{}
