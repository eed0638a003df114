//! Commands.

ghost use Rattle.std.specs.Prelude.{◌≡◌, ℕ};
ghost use Rattle.queue_model.specs.State.{State};
ghost use Rattle.queue_model.specs.declared.caller.Caller.{Caller};
ghost use Rattle.queue_commands.specs.Coming.{Comes};
ghost use Rattle.queue_commands.specs.Commands.{AsksAs};

use crate::answering::Answering;
use crate::changing::{make, remove, set};
use crate::error::AskError;
use crate::receiving::receive;
use crate::request::{Command, Request};
use crate::sending::send;
use crate::text::Text;
use std::alloc::Global;

/// Asks the calls of a command, one after the other up to the first that is refused, and gives the
/// text that it prints.
///
/// # Errors
///
/// `Refused` where a call was refused; `Unanswered` where one was not answered, and who answers
/// knows why; `NoMemory` where there is none for a body or for the text.
pub fn ask<A: Answering>(
    alloc: Global,
    answers: &mut A,
    request: &Request,
) -> Result<Text, AskError>
    ensures { (o : A.Origin) (c : Caller) (s : State) → A.stands answers.old o c s →
        Comes (A.stands answers.new o c) (A.lacks answers.new o c)
        (AsksAs c request.now s) result }
{
    let moment = request.moment;
    match &request.command {
        Command::Send(sending) => send(alloc, answers, moment, sending),
        Command::Receive(receiving) => receive(alloc, answers, moment, receiving),
        Command::Make { key, new } => make(alloc, answers, moment, *key, *new),
        Command::Remove { queue } => remove(alloc, answers, moment, *queue),
        Command::Set(setting) => set(alloc, answers, moment, setting),
    }
}
