//! Plain lists answer calls.

ghost use Rattle.std.specs.Prelude.{◌≡◌};

use crate::answering::Answering;
use queue_model::{Answer, Applied, Call, Caller, System};

/// A system on plain lists, and who calls. It lacks memory alone.
#[derive(Drop)]
pub struct PlainLists {
    /// The system.
    pub system: System,
    /// The caller.
    pub caller: Caller,
}

impl Answering for PlainLists {
    ghost use Rattle.std.specs.Prelude.{◌≡◌, ⊤};

    ghost Origin = { ⊤ };

    ghost stands = { λ p _ c s. (p.caller ≡ c) × (p.system ≡ s) };

    ghost lacks = { λ _ _ _ _ _. ⊤ };

    fn answer(&mut self, call: Call) -> Option<Answer> {
        match self.system.apply(self.caller, &call) {
            Applied::Answer(answer) => Some(answer),
            Applied::Waits | Applied::NoMemory => None,
        }
    }
}
