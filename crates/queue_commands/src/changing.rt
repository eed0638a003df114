//! Queues are made, removed and set.

ghost use Rattle.std.specs.Prelude.{◌≡◌, ℕ, Option, length};
ghost use Rattle.queue_model.specs.State.{State};
ghost use Rattle.queue_model.specs.declared.call.Call.TheVariants as calls;
ghost use Rattle.queue_model.specs.declared.caller.Caller.{Caller};
ghost use Rattle.queue_commands.specs.Changing.{MakesAs, RemovesAs, SetsAs};
ghost use Rattle.queue_commands.specs.Coming.{Comes};
ghost use Rattle.queue_commands.specs.Finding.{IsDone};

use crate::answering::Answering;
use crate::asking::done_in;
use crate::error::AskError;
use crate::finding::{find, make_new, set_all};
use crate::queue_name::QueueName;
use crate::request::{NewQueue, Setting};
use crate::text::Text;
use queue_model::Call;
use std::alloc::Global;

/// Makes a queue, which its key may not have yet, and gives the text of its id.
pub(crate) fn make<A: Answering>(
    alloc: Global,
    answers: &mut A,
    moment: u64,
    key: Option<u32>,
    new: NewQueue,
) -> Result<Text, AskError>
    ensures { (o : A.Origin) (c : Caller) (s : State) → A.stands answers.old o c s →
        Comes (A.stands answers.new o c) (A.lacks answers.new o c)
        (MakesAs c moment key new s) result }
{
    let id = make_new(alloc, answers, moment, key, new)?;
    let mut text = Text::new(alloc);
    text.put_number_line(u64::from(id))?;
    Ok(text)
}

/// Removes a queue, and gives no text.
pub(crate) fn remove<A: Answering>(
    alloc: Global,
    answers: &mut A,
    moment: u64,
    queue: QueueName,
) -> Result<Text, AskError>
    ensures { (o : A.Origin) (c : Caller) (s : State) → A.stands answers.old o c s →
        Comes (A.stands answers.new o c) (A.lacks answers.new o c)
        (RemovesAs c moment queue s) result }
{
    let id = find(alloc, answers, moment, queue, None)?;
    remove_found(alloc, answers, id)
}

/// Removes the queue of an id, and gives no text.
fn remove_found<A: Answering>(alloc: Global, answers: &mut A, id: u32) -> Result<Text, AskError>
    ensures { (o : A.Origin) (c : Caller) (s : State) → A.stands answers.old o c s →
        Comes (A.stands answers.new o c) (A.lacks answers.new o c)
        (IsDone c (calls.Remove id) s) result }
{
    done_in(alloc, &answers.answer(Call::Remove { id }))
}

/// Sets a queue, and gives no text.
pub(crate) fn set<A: Answering>(
    alloc: Global,
    answers: &mut A,
    moment: u64,
    setting: &Setting,
) -> Result<Text, AskError>
    ensures { (o : A.Origin) (c : Caller) (s : State) → A.stands answers.old o c s →
        Comes (A.stands answers.new o c) (A.lacks answers.new o c)
        (SetsAs c moment setting.now s) result }
{
    let id = find(alloc, answers, moment, setting.queue, None)?;
    set_all(alloc, answers, moment, setting.settings, id)
}
