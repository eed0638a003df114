//! What a call comes to.

ghost use Rattle.std.specs.Prelude.{◌≡◌, ℕ, List};
ghost use Rattle.page_locks.specs.declared.lock.LockName.{LockName};
ghost use Rattle.queue_model.specs.declared.call.Call.{Call};
ghost use Rattle.queue_model.specs.declared.caller.Caller.{Caller};
ghost use Rattle.queue_model.specs.State.{State};
ghost use Rattle.xsi_inquiry.specs.Writing.{Plan};
ghost use Rattle.call_decisions.specs.Settling.{IsRight, Means, settled_by, verdict_of};

use queue_model::Errno;
use xsi_inquiry::{Decision, Sweep, Verdict};

/// What a call comes to at its Decide, where each record that it inserted on trial had room.
#[derive(Clone, Copy)]
pub enum Settled {
    /// It is answered.
    Answers(Verdict),
    /// A Remove is answered Done. The messages of its queue are swept turn by turn before its
    /// writes.
    Sweeps(Sweep),
    /// It waits: the rules have no answer now. It writes nothing.
    Waits,
}

impl Settled {
    /// Of a decision, by the stop mark: a call that is put off waits, and is refused with EINTR
    /// once the system is stopped.
    pub fn of(decision: Decision, stopped: bool) -> Settled
        ensures value { result ≡ settled_by stopped decision }
        ensures means { (c : Caller) (call : Call) (names : List LockName) (bytes : List ℕ)
            (s : State) (p : Plan) → s.stopped ≡ stopped → IsRight c call names bytes s p decision →
            Means c call names bytes s p result }
    {
        match decision {
            Decision::PutOff => {
                if stopped {
                    return Settled::Answers(Verdict::Refused(Errno::EINTR));
                }
                Settled::Waits
            }
            Decision::Answers(verdict) => Settled::Answers(verdict),
            Decision::Sweeps(sweep) => Settled::Sweeps(sweep),
        }
    }

    /// The answer but for the bytes of a message; none where the call waits.
    pub fn verdict(&self) -> Option<Verdict>
        ensures { result ≡ verdict_of self.now }
    {
        match self {
            Settled::Answers(verdict) => Some(*verdict),
            Settled::Sweeps(_) => Some(Verdict::Done),
            Settled::Waits => None,
        }
    }
}
