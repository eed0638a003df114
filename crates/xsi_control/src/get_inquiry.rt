//! Get.

ghost use Rattle.std.specs.Prelude.{◌≡◌, slice_get};
ghost use Rattle.queue_model.specs.Rules.{new_queue};
ghost use Rattle.xsi_inquiry.specs.type_chains.Entries.{queue_entry};
ghost use Rattle.xsi_control.specs.Getting.{absent_or_counted, get_locked, made_trials, making_names, one_more};

use page_locks::LockName;
use queue_model::{Caller, DEFAULT_QBYTES, Errno, GetArguments, Permissions};
use queue_records::{
    Counter, END_OF_IDS, KeyEntry, MAX_QUEUES, QueueEntry, Record, counter_key, key_key,
};
use xsi_inquiry::{
    Decision, Inquiry, NotASystem, Room, Verdict, Wanted, Write, counter_in, key_in,
};

/// How far a Get has come.
#[derive(Clone, Copy)]
pub enum Getting {
    /// The Key of its key is to be read.
    AtKey,
    /// The queue of its key has this id.
    Found(u32),
    /// No queue has its key, and none is to be made.
    Absent,
    /// A queue is to be made. The Counter is to be read.
    AtCounter,
    /// A queue is to be made by this Counter, where it leaves an id and a place.
    Counted(Counter),
}

/// A Get (POSIX.1-2017, `msgget()`). It reads the Key, where it has a key, and the Counter
/// where a queue is to be made. It holds its key, and to make a queue the Counter and the queue
/// of the next id too.
#[derive(Clone, Copy)]
pub struct GetInquiry {
    caller: Caller,
    getting: Getting,
}

const _: () = prove!(size_of::<GetInquiry>() <= 400);

impl GetInquiry {
    /// The name at this place among those that it holds Exclusive, in the order in which they
    /// are taken: its key, where it has one; to make a queue the Counter, and then the queue
    /// of the next id.
    pub fn name(&self, arguments: &GetArguments, place: usize) -> Option<LockName>
        ensures { result ≡ slice_get (get_locked arguments.now self.now.getting) place }
    {
        match (arguments.key, place) {
            (None, _) => self.getting.name(place),
            (Some(key), 0) => Some(LockName::Key(key)),
            (Some(_), _) => self.getting.name(place - 1),
        }
    }
}

impl Getting {
    /// The name at this place among those that are held to make a queue.
    fn name(&self, place: usize) -> Option<LockName>
        ensures { result ≡ slice_get (making_names self.now) place }
    {
        match (self, place) {
            (Getting::AtCounter | Getting::Counted(_), 0) => Some(LockName::Counter),
            (Getting::Counted(counter), 1) => {
                one_more(counter)?;
                Some(LockName::Queue(counter.next_id))
            }
            (_, _) => None,
        }
    }
}

impl Inquiry for GetInquiry {
    ghost use Rattle.std.specs.Prelude.{⊤};
    ghost use Rattle.queue_model.specs.declared.call.Call.TheVariants as calls;
    ghost use Rattle.xsi_control.specs.GetAsked.{few_of_get, get_asks, get_asks_given, get_inserts};
    ghost use Rattle.xsi_control.specs.Getting.{KnowsOfGet, get_decided, get_left, get_locked, get_plan, get_wanted};

    type Arguments = GetArguments;

    ghost caller = { λ i. i.caller };

    ghost call = { λ a. calls.Get a };

    ghost wanted = { λ a i. get_wanted a i.getting };

    ghost locked = { λ a i. get_locked a i.getting };

    ghost Knows = { λ a i room s. KnowsOfGet i.caller a i.getting s };

    ghost Follows = { λ a i j. ⊤ };

    ghost left = { λ a i. get_left i.getting };

    ghost decided = { λ a i. get_decided a i.getting };

    ghost plan = { λ a i. get_plan i.caller a i.getting };

    ghost asks = { λ a i names s t found covered agrees told.
        get_asks a i.getting names s t found covered agrees told };

    ghost asks_given = { λ a i names s t given agrees told.
        get_asks_given a i.getting s t given told };

    ghost few = { λ a i. few_of_get i.caller a i.getting };

    ghost inserts = { λ a i. get_inserts i.caller a i.getting };

    fn begin(by: Caller, arguments: &GetArguments) -> GetInquiry {
        let getting = match arguments.key {
            Some(_) => Getting::AtKey,
            None => Getting::AtCounter,
        };
        GetInquiry {
            caller: by,
            getting,
        }
    }

    fn wants(&self, arguments: &GetArguments) -> Option<Wanted> {
        match self.getting {
            Getting::AtKey => {
                let key = arguments.key?;
                Some(Wanted::At(key_key(key)))
            }
            Getting::AtCounter => Some(Wanted::At(counter_key())),
            Getting::Found(_) | Getting::Absent | Getting::Counted(_) => None,
        }
    }

    fn take(
        &mut self,
        arguments: &GetArguments,
        found: Option<Record<'_>>,
        _room: &mut Room,
    ) -> Result<(), NotASystem> {
        match self.getting {
            Getting::AtKey => {
                let Some(entry) = found else {
                    self.getting = absent_or_counted(arguments.create);
                    return Ok(());
                };
                self.getting = Getting::Found(key_in(entry)?.id);
                Ok(())
            }
            Getting::AtCounter => {
                let Some(entry) = found else {
                    return Err(NotASystem);
                };
                self.getting = Getting::Counted(counter_in(entry)?);
                Ok(())
            }
            Getting::Found(_) | Getting::Absent | Getting::Counted(_) => Err(NotASystem),
        }
    }

    fn take_given(&mut self, _arguments: &GetArguments, _given: bool) -> Result<(), NotASystem> {
        Err(NotASystem)
    }

    fn decide(&self, arguments: &GetArguments) -> Result<Decision, NotASystem> {
        match &self.getting {
            Getting::Found(_) if arguments.create && arguments.excl => {
                Ok(Decision::refuses(Errno::EEXIST))
            }
            Getting::Found(id) => Ok(Decision::Answers(Verdict::Id(*id))),
            Getting::Absent => Ok(Decision::refuses(Errno::ENOENT)),
            Getting::Counted(counter) => match one_more(counter) {
                None => Ok(Decision::refuses(Errno::ENOSPC)),
                Some(_) => Ok(Decision::Answers(Verdict::Id(counter.next_id))),
            },
            Getting::AtKey | Getting::AtCounter => Err(NotASystem),
        }
    }

    fn trial<'a>(&self, arguments: &'a GetArguments, place: usize) -> Option<Record<'a>> {
        match &self.getting {
            Getting::Counted(counter) => {
                one_more(counter)?;
                made_trial(self.caller, arguments, counter.next_id, place)
            }
            Getting::AtKey | Getting::Found(_) | Getting::Absent | Getting::AtCounter => None,
        }
    }

    fn write(&self, _arguments: &GetArguments, slot: usize) -> Option<Write> {
        match (slot, &self.getting) {
            (0, Getting::Counted(counter)) => {
                Some(Write::Replace(Record::Counter(one_more(counter)?)))
            }
            (_, _) => None,
        }
    }
}

/// Where no queue has the key, one is made if the call says so.
fn absent_or_counted(create: bool) -> Getting
    ensures { result ≡ absent_or_counted create }
{
    match create {
        true => Getting::AtCounter,
        false => Getting::Absent,
    }
}

/// The Counter with one queue more, where a place and an id are left.
fn one_more(counter: &Counter) -> Option<Counter>
    ensures { result ≡ one_more counter.now }
{
    if counter.queues_alive >= MAX_QUEUES || counter.next_id >= END_OF_IDS {
        return None;
    }
    Some(Counter {
        next_id: counter.next_id + 1,
        queues_alive: counter.queues_alive + 1,
    })
}

/// What is inserted on trial for a queue of this id: its Queue and, where it is not
/// private, its Key.
fn made_trial<'a>(
    caller: Caller,
    arguments: &GetArguments,
    id: u32,
    place: usize,
) -> Option<Record<'a>>
    ensures { result ≡ slice_get (made_trials caller arguments.now id) place }
{
    match place {
        0 => Some(Record::Queue(new_entry(id, caller, arguments))),
        1 => {
            let key = arguments.key?;
            Some(Record::Key(KeyEntry { key, id }))
        }
        _ => None,
    }
}

/// The Queue of a new queue.
fn new_entry(id: u32, caller: Caller, arguments: &GetArguments) -> QueueEntry
    ensures { result ≡ queue_entry (new_queue id caller arguments.now) }
{
    let permissions = Permissions::of_creator(caller, arguments.mode);
    QueueEntry {
        id,
        key: arguments.key,
        qbytes: DEFAULT_QBYTES,
        cbytes: 0,
        qnum: 0,
        lspid: 0,
        lrpid: 0,
        stime: 0,
        rtime: 0,
        ctime: arguments.moment,
        next_serial: 1,
        first: None,
        last: None,
        lowest: None,
        uid: permissions.uid,
        gid: permissions.gid,
        cuid: permissions.cuid,
        cgid: permissions.cgid,
        mode: permissions.mode,
    }
}
