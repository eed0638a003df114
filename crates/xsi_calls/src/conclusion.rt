//! What a call comes to.

ghost use Rattle.std.specs.Prelude.{◌≡◌};
ghost use Rattle.xsi_calls.specs.Concluding.{answer_in, conclusion_by};

use call_writes::Settled;
use queue_model::Answer;
use xsi_inquiry::{Room, Verdict};

/// What a call has come to at its Decide.
#[derive(Clone, Copy)]
pub enum Conclusion {
    /// It is answered. The bytes of a message that was received are in its room.
    Answers(Verdict),
    /// The rules have no answer now: it waits.
    Waits,
    /// A record that it was to insert has no room, which is fault 50. It leaves all as it was.
    HasNoRoom,
}

impl Conclusion {
    /// That of a call which came to this; none where a record had no room.
    pub(crate) fn of(settled: Option<Settled>) -> Conclusion
        ensures { result ≡ conclusion_by settled }
    {
        match settled {
            Some(Settled::Answers(verdict)) => Conclusion::Answers(verdict),
            Some(Settled::Sweeps(_)) => Conclusion::Answers(Verdict::Done),
            Some(Settled::Waits) => Conclusion::Waits,
            None => Conclusion::HasNoRoom,
        }
    }

    /// The answer, with the bytes of the room; none where there is no answer.
    pub(crate) fn answer_in(self, room: Room) -> Option<Answer>
        ensures { result ≡ answer_in self room.bytes }
    {
        match self {
            Conclusion::Answers(verdict) => Some(verdict.answer_in(room)),
            Conclusion::Waits | Conclusion::HasNoRoom => None,
        }
    }
}
