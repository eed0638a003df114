//! A question under way.

ghost use Rattle.std.specs.Prelude.{◌≡◌, false, true, None, Some, if◌then◌else◌};
ghost use Rattle.std.specs.Option.{is_some};
ghost use Rattle.xsi_calls.specs.QuestionWords.{Look, Moved, ToFind, begun};
ghost use Rattle.xsi_calls.specs.QuestionSteps.{Closes, Listens};

use crate::hearing::hear;
use bucket_page::RecordKey;
use call_writes::{Access, AnyInquiry};
use file_pages::FileFault;
use queue_model::Call;
use queue_records::counter_key;
use std::marker::Model;
use step_rules::{Kind, Progress};
use xsi_inquiry::{Inquiry, NotASystem, Room};

/// A question under way: the access that reads its key, and whether the inquiry was told the
/// answer.
#[derive(Drop)]
pub(crate) struct Question {
    pub(crate) access: Access,
    pub(crate) told: bool,
}

/// The place of a question, which is under way or not. The next one begins where the last one was.
#[derive(Drop)]
pub(crate) struct QuestionPlace {
    pub(crate) question: Question,
    pub(crate) is_asking: bool,
}

impl Model for QuestionPlace {
    ghost use Rattle.std.specs.Prelude.{◌≡◌, Option, Some, None, true, if◌then◌else◌};
    ghost use Rattle.xsi_calls.specs.declared.question.Question.{Question};
    ghost use Rattle.xsi_calls.specs.Questions.{IsUnderWay};

    ghost Value = { Option Question };

    ghost view = { λ p. if p.is_asking then Some p.question else None };

    ghost invariant = { λ p. p.is_asking ≡ true → IsUnderWay p.question.access };
}

impl QuestionPlace {
    /// None is under way.
    pub(crate) fn new() -> QuestionPlace
        ensures { result ≡ None }
    {
        QuestionPlace {
            question: Question {
                access: Access::find(counter_key(), 0),
                told: false,
            },
            is_asking: false,
        }
    }

    /// Whether one is under way.
    pub(crate) fn is_asking(&self) -> bool
        ensures { result ≡ is_some self.now }
    {
        self.is_asking
    }

    /// One begins that reads a key, which has this pseudokey.
    pub(crate) fn begin(&mut self, key: RecordKey, pseudokey: u32)
        ensures { self.new ≡ Some (record {
          access = begun (ToFind key) pseudokey;
          told = false;
        }) }
    {
        self.question.access.begin_find(key, pseudokey);
        self.question.told = false;
        self.is_asking = true;
    }

    /// It is let go.
    pub(crate) fn close(&mut self)
        ensures { self.new ≡ None }
    {
        self.is_asking = false;
    }
}

/// Tells the inquiry what the access has found, in the Look by which a page answered: behind it
/// another seat may change the Counter.
pub(crate) fn listen(
    question: &mut Question,
    inquiry: &mut AnyInquiry,
    room: &mut Room,
    call: &Call,
    did: Progress<FileFault>,
) -> Result<(), NotASystem>
    ensures { Listens call.now did result question.old question.new
        (record { inquiry = inquiry.old; room = room.old })
        (record { inquiry = inquiry.new; room = room.new }) }
{
    if question.told {
        return Ok(());
    }
    if !is_look(did) {
        return Ok(());
    }
    let Some(found) = question.access.found() else {
        return Ok(());
    };
    let Some(wanted) = inquiry.wants(call) else {
        return Err(NotASystem);
    };
    let heard = hear(inquiry, room, call, wanted, found);
    question.told = true;
    heard
}

/// Whether it still holds or asks for a lock. Else it is over.
pub(crate) fn goes_on(question: &Question) -> bool
    ensures { Closes question.now (if result then Some question.now else None) }
{
    if question.access.has_ended() {
        return false;
    }
    true
}

/// Whether a page was looked at.
fn is_look(did: Progress<FileFault>) -> bool
    ensures looked { result ≡ true → did ≡ Moved Look }
    ensures other { did ≡ Moved Look → result ≡ true }
{
    matches!(did, Progress::Moved(Kind::Look))
}
