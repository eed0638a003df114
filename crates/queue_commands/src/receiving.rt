//! Messages are received.

ghost use Rattle.std.specs.Prelude.{◌≡◌, ◌++◌, ◌∷◌, [], ℕ, OnOk, length};
ghost use Rattle.std.specs.Fmt.{decimal};
ghost use Rattle.queue_model.specs.State.{State};
ghost use Rattle.queue_model.specs.declared.caller.Caller.{Caller};
ghost use Rattle.queue_commands.specs.Coming.{Comes};
ghost use Rattle.queue_commands.specs.Receiving.{ReceivesAs, ShowsTheOne, TakesAllAs, TakesAs, TakesFrom, head_text, receive_call, shown_text};

use crate::answering::Answering;
use crate::asking::message_in;
use crate::error::AskError;
use crate::finding::find;
use crate::request::Receiving;
use crate::text::Text;
use numbers::faults::NoMemory;
use queue_model::{Call, Errno, Message, ReceiveArguments};
use std::alloc::Global;

/// Receives messages, and gives the text of them.
pub(crate) fn receive<A: Answering>(
    alloc: Global,
    answers: &mut A,
    moment: u64,
    receiving: &Receiving,
) -> Result<Text, AskError>
    ensures { (o : A.Origin) (c : Caller) (s : State) → A.stands answers.old o c s →
        Comes (A.stands answers.new o c) (A.lacks answers.new o c)
        (ReceivesAs c moment receiving.now s) result }
{
    let id = find(alloc, answers, moment, receiving.queue, None)?;
    take_from(alloc, answers, moment, receiving, id)
}

/// Receives the one message of a serial from a queue, or as many as may be, and gives their text.
fn take_from<A: Answering>(
    alloc: Global,
    answers: &mut A,
    moment: u64,
    receiving: &Receiving,
    id: u32,
) -> Result<Text, AskError>
    ensures { (o : A.Origin) (c : Caller) (s : State) → A.stands answers.old o c s →
        Comes (A.stands answers.new o c) (A.lacks answers.new o c)
        (TakesFrom c moment receiving.now receiving.now.serial id s) result }
{
    match receiving.serial {
        Some(serial) => take_the_one(alloc, answers, moment, receiving, Place { id, serial }),
        None => take_all(alloc, answers, moment, receiving, id),
    }
}

/// A message of a queue.
#[derive(Clone, Copy)]
struct Place {
    /// The queue.
    id: u32,
    /// The serial of the message.
    serial: u64,
}

/// Receives the message of a serial, and gives its text. Where the type selects another one, that is
/// refused as if there were none.
fn take_the_one<A: Answering>(
    alloc: Global,
    answers: &mut A,
    moment: u64,
    receiving: &Receiving,
    place: Place,
) -> Result<Text, AskError>
    ensures { (o : A.Origin) (c : Caller) (s : State) → A.stands answers.old o c s →
        Comes (A.stands answers.new o c) (A.lacks answers.new o c)
        (TakesFrom c moment receiving.now (Some place.serial) place.id s) result }
{
    let message = take(answers, moment, receiving, place.id)?;
    let text = show_the_one(alloc, receiving.heads, &message, place.serial)?;
    Ok(text)
}

/// The text of a message, if it has the serial.
fn show_the_one(
    alloc: Global,
    heads: bool,
    message: &Message,
    serial: u64,
) -> Result<Text, AskError>
    ensures { ShowsTheOne serial heads message.now result }
{
    if message.serial != serial {
        return Err(AskError::Refused(Errno::ENOMSG));
    }
    let mut text = Text::new(alloc);
    put_message(&mut text, heads, message)?;
    Ok(text)
}

/// Receives messages from a queue, as many as may be or until none is left, and gives their text.
fn take_all<A: Answering>(
    alloc: Global,
    answers: &mut A,
    moment: u64,
    receiving: &Receiving,
    id: u32,
) -> Result<Text, AskError>
    ensures { (o : A.Origin) (c : Caller) (s : State) → A.stands answers.old o c s →
        Comes (A.stands answers.new o c) (A.lacks answers.new o c)
        (TakesAllAs c (receive_call moment receiving.now id) receiving.now s) result }
{
    let mut text = Text::new(alloc);
    for taken in 0..receiving.most {
        match take(answers, moment, receiving, id) {
            Ok(message) => put_message(&mut text, receiving.heads, &message)?,
            Err(AskError::Refused(Errno::ENOMSG)) if 0 < taken => return Ok(text),
            Err(error) => return Err(error),
        }
    }
    Ok(text)
}

/// Receives one message.
fn take<A: Answering>(
    answers: &mut A,
    moment: u64,
    receiving: &Receiving,
    id: u32,
) -> Result<Message, AskError>
    ensures { (o : A.Origin) (c : Caller) (s : State) → A.stands answers.old o c s →
        Comes (A.stands answers.new o c) (A.lacks answers.new o c)
        (TakesAs c moment receiving.now id s) result }
{
    let call = ReceiveArguments {
        id,
        size: receiving.size,
        mtype: receiving.mtype,
        nowait: true,
        noerror: receiving.noerror,
        moment,
    };
    message_in(answers.answer(Call::Receive(call)))
}

/// Puts a message last: its bytes as they are, behind a line that tells of it where it has one.
fn put_message(text: &mut Text, heads: bool, message: &Message) -> Result<(), NoMemory>
    ensures { OnOk result (text.new ≡ text.old ++ shown_text heads message.now) }
{
    if heads {
        put_head(text, message)?;
    }
    text.put(message.bytes.as_slice())
}

/// Puts serial, sender, type and length of a message last, as a line.
fn put_head(text: &mut Text, message: &Message) -> Result<(), NoMemory>
    ensures { OnOk result (text.new ≡ text.old ++ head_text message.now) }
{
    put_field(text, message.serial)?;
    put_field(text, u64::from(message.sender))?;
    text.put_signed(message.mtype)?;
    text.put(b" ")?;
    text.put_number_line(message.bytes.len() as u64)
}

/// Puts a number last, and a space.
fn put_field(text: &mut Text, number: u64) -> Result<(), NoMemory>
    ensures { OnOk result (text.new ≡ text.old ++ decimal number ++ 32 ∷ []) }
{
    text.put_number(number)?;
    text.put(b" ")
}
