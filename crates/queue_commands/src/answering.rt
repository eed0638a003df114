//! Who answers calls.

ghost use Rattle.std.specs.Prelude.{◌≡◌, None};
ghost use Rattle.queue_model.specs.Rules.{outcome};
ghost use Rattle.queue_model.specs.State.{State};
ghost use Rattle.queue_model.specs.declared.call.Call.{Call};
ghost use Rattle.queue_model.specs.declared.caller.Caller.{Caller};
ghost use Rattle.queue_commands.specs.Asking.{IsAsked};

use queue_model::{Answer, Call};

/// Who answers the calls of one caller, one after the other, as the rules of queues do in the
/// system that the calls before have left.
pub trait Answering {
    /// What they are answered from, before the first.
    ghost Origin: { Type 0 };

    /// The calls of this caller so far have left this system, from there.
    ghost stands: { Self → Origin → Caller → State → Type 0 };

    /// Why this call of the caller was not answered in this system.
    ghost lacks: { Self → Origin → Caller → Call → State → Type 0 };

    /// What a call is answered that never waits in the system; none where something was lacking.
    fn answer(&mut self, call: Call) -> Option<Answer>
        ensures { (o : Origin) (c : Caller) (s : State) → stands self.old o c s →
            (outcome c call s ≡ None → ⊥) →
            IsAsked c call s (stands self.new o c) (lacks self.new o c call s) result };
}
