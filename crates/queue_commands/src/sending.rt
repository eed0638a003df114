//! Messages are sent.

ghost use Rattle.std.specs.Prelude.{◌≡◌, ◌++◌, ◌∷◌, [], OnOk};
ghost use Rattle.queue_model.specs.State.{State};
ghost use Rattle.queue_model.specs.declared.caller.Caller.{Caller};
ghost use Rattle.queue_commands.specs.Coming.{Comes};
ghost use Rattle.queue_commands.specs.Sending.{SendsAllAs, SendsAs, SendsOneAs, send_call, told_text};

use crate::answering::Answering;
use crate::asking::serial_in;
use crate::error::AskError;
use crate::finding::find;
use crate::request::Sending;
use crate::text::Text;
use numbers::faults::NoMemory;
use queue_model::{Body, Call, SendArguments};
use std::alloc::Global;

/// Sends messages, and gives the text of their serials, or none.
pub(crate) fn send<A: Answering>(
    alloc: Global,
    answers: &mut A,
    moment: u64,
    sending: &Sending,
) -> Result<Text, AskError>
    ensures { (o : A.Origin) (c : Caller) (s : State) → A.stands answers.old o c s →
        Comes (A.stands answers.new o c) (A.lacks answers.new o c)
        (SendsAs c moment sending.now s) result }
{
    let id = find(alloc, answers, moment, sending.queue, sending.create)?;
    send_all(alloc, answers, moment, sending, id)
}

/// Sends each body to a queue, one after the other, and gives the text of their serials, or none.
fn send_all<A: Answering>(
    alloc: Global,
    answers: &mut A,
    moment: u64,
    sending: &Sending,
    id: u32,
) -> Result<Text, AskError>
    ensures { (o : A.Origin) (c : Caller) (s : State) → A.stands answers.old o c s →
        Comes (A.stands answers.new o c) (A.lacks answers.new o c)
        (SendsAllAs c (send_call moment sending.now.mtype id) sending.now.tells
        sending.now.bodies.items s) result }
{
    let mut text = Text::new(alloc);
    for body in &sending.bodies {
        let serial = send_one(answers, moment, sending.mtype, id, body)?;
        put_serial(&mut text, sending.tells, serial)?;
    }
    Ok(text)
}

/// Sends one body, and gives its serial.
fn send_one<A: Answering>(
    answers: &mut A,
    moment: u64,
    mtype: i64,
    id: u32,
    body: &Body,
) -> Result<u64, AskError>
    ensures { (o : A.Origin) (c : Caller) (s : State) → A.stands answers.old o c s →
        Comes (A.stands answers.new o c) (A.lacks answers.new o c)
        (SendsOneAs c moment mtype id body.now s) result }
{
    let call = SendArguments {
        id,
        mtype,
        body: body.try_copy()?,
        nowait: true,
        moment,
    };
    serial_in(&answers.answer(Call::Send(call)))
}

/// Puts a serial last, as a line, where serials are told.
fn put_serial(text: &mut Text, tells: bool, serial: u64) -> Result<(), NoMemory>
    ensures { OnOk result (text.new ≡ text.old ++ told_text tells (serial ∷ [])) }
{
    if !tells {
        return Ok(());
    }
    text.put_number_line(serial)
}
