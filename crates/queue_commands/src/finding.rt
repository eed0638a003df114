//! A queue is found, made where it is not there, and set.

ghost use Rattle.std.specs.Prelude.{◌≡◌, ℕ, Option};
ghost use Rattle.queue_model.specs.State.{State};
ghost use Rattle.queue_model.specs.declared.caller.Caller.{Caller};
ghost use Rattle.queue_commands.specs.Asking.{IsAnswered};
ghost use Rattle.queue_commands.specs.Coming.{Comes};
ghost use Rattle.queue_commands.specs.Finding.{SetsNewAs, FindsAs, FindsKeyAs, LimitsAs, MakesNewAs, SetsAllAs};
ghost use Rattle.queue_model.specs.declared.answer.Answer.TheVariants as answered;
ghost use Rattle.queue_model.specs.declared.call.Call.TheVariants as calls;

use crate::answering::Answering;
use crate::asking::{done_in, id_in, info_in};
use crate::error::AskError;
use crate::queue_name::QueueName;
use crate::request::{NewQueue, Settings};
use crate::text::Text;
use queue_model::{Call, Errno, GetArguments, QueueInfo, SetArguments};
use std::alloc::Global;

/// The id of the queue that a command names. That of a key is asked for; and where the key has none,
/// and it is said how one is made, it is made.
pub(crate) fn find<A: Answering>(
    alloc: Global,
    answers: &mut A,
    moment: u64,
    queue: QueueName,
    create: Option<NewQueue>,
) -> Result<u32, AskError>
    ensures { (o : A.Origin) (c : Caller) (s : State) → A.stands answers.old o c s →
        Comes (A.stands answers.new o c) (A.lacks answers.new o c)
        (FindsAs c moment queue create s) result }
{
    match queue {
        QueueName::Id(id) => Ok(id),
        QueueName::Key(key) => find_key(alloc, answers, moment, key, create),
    }
}

/// The id of the queue of a key, which is made where the key has none and it is said how.
fn find_key<A: Answering>(
    alloc: Global,
    answers: &mut A,
    moment: u64,
    key: u32,
    create: Option<NewQueue>,
) -> Result<u32, AskError>
    ensures { (o : A.Origin) (c : Caller) (s : State) → A.stands answers.old o c s →
        Comes (A.stands answers.new o c) (A.lacks answers.new o c)
        (FindsKeyAs c moment key create s) result }
{
    let call = GetArguments {
        key: Some(key),
        create: false,
        excl: false,
        mode: 0,
        moment,
    };
    let Some(new) = create else {
        return get(answers, call);
    };
    match get(answers, call) {
        Err(AskError::Refused(Errno::ENOENT)) => make_new(alloc, answers, moment, Some(key), new),
        found => found,
    }
}

/// The id that a Get is answered.
fn get<A: Answering>(answers: &mut A, call: GetArguments) -> Result<u32, AskError>
    ensures { (o : A.Origin) (c : Caller) (s : State) → A.stands answers.old o c s →
        Comes (A.stands answers.new o c) (A.lacks answers.new o c)
        (IsAnswered answered.Id c (calls.Get call) s) result }
{
    id_in(&answers.answer(Call::Get(call)))
}

/// Makes a queue, which its key may not have yet, sets what is to be set of it, and gives its id.
pub(crate) fn make_new<A: Answering>(
    alloc: Global,
    answers: &mut A,
    moment: u64,
    key: Option<u32>,
    new: NewQueue,
) -> Result<u32, AskError>
    ensures { (o : A.Origin) (c : Caller) (s : State) → A.stands answers.old o c s →
        Comes (A.stands answers.new o c) (A.lacks answers.new o c)
        (MakesNewAs c moment key new s) result }
{
    let call = GetArguments {
        key,
        create: true,
        excl: true,
        mode: new.mode,
        moment,
    };
    let id = get(answers, call)?;
    set_new(alloc, answers, moment, new.settings, id)
}

/// Sets what is to be set of a new queue, if anything is, and gives its id.
fn set_new<A: Answering>(
    alloc: Global,
    answers: &mut A,
    moment: u64,
    settings: Option<Settings>,
    id: u32,
) -> Result<u32, AskError>
    ensures { (o : A.Origin) (c : Caller) (s : State) → A.stands answers.old o c s →
        Comes (A.stands answers.new o c) (A.lacks answers.new o c)
        (SetsNewAs c moment settings id s) result }
{
    match settings {
        Some(settings) => {
            set_all(alloc, answers, moment, settings, id)?;
            Ok(id)
        }
        None => Ok(id),
    }
}

/// Sets a queue, and gives no text.
pub(crate) fn set_all<A: Answering>(
    alloc: Global,
    answers: &mut A,
    moment: u64,
    settings: Settings,
    id: u32,
) -> Result<Text, AskError>
    ensures { (o : A.Origin) (c : Caller) (s : State) → A.stands answers.old o c s →
        Comes (A.stands answers.new o c) (A.lacks answers.new o c)
        (SetsAllAs c moment settings id s) result }
{
    let qbytes = limit(answers, id, settings.qbytes)?;
    let call = SetArguments {
        id,
        qbytes,
        uid: settings.uid,
        gid: settings.gid,
        mode: settings.mode,
        moment,
    };
    done_in(alloc, &answers.answer(Call::Set(call)))
}

/// The limit that a queue is given; where none is, the one that it has.
fn limit<A: Answering>(answers: &mut A, id: u32, given: Option<u32>) -> Result<u32, AskError>
    ensures { (o : A.Origin) (c : Caller) (s : State) → A.stands answers.old o c s →
        Comes (A.stands answers.new o c) (A.lacks answers.new o c)
        (LimitsAs c id given s) result }
{
    match given {
        Some(qbytes) => Ok(qbytes),
        None => Ok(stat(answers, id)?.qbytes),
    }
}

/// What a Stat is answered.
fn stat<A: Answering>(answers: &mut A, id: u32) -> Result<QueueInfo, AskError>
    ensures { (o : A.Origin) (c : Caller) (s : State) → A.stands answers.old o c s →
        Comes (A.stands answers.new o c) (A.lacks answers.new o c)
        (IsAnswered answered.Info c (calls.Stat id) s) result }
{
    info_in(&answers.answer(Call::Stat { id }))
}
