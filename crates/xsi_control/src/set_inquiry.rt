//! Set.

ghost use Rattle.std.specs.Prelude.{◌≡◌};
ghost use Rattle.xsi_control.specs.Setting.{entry_with_settings, set_entry};

use queue_model::{Caller, Errno, MAX_QBYTES, SUPERUSER, SetArguments};
use queue_records::{QueueEntry, Record};
use xsi_inquiry::type_chains::permissions_in;
use xsi_inquiry::{Decision, Inquiry, NotASystem, Room, Sought, Verdict, Wanted, Write};

/// A Set (POSIX.1-2017, `msgctl()` with `IPC_SET`). Where `qbytes` is over the limit of all
/// queues it reads nothing; else it reads the Queue; where there is none, it asks whether the
/// id was given out.
#[derive(Clone, Copy)]
pub struct SetInquiry {
    caller: Caller,
    sought: Sought,
}

const _: () = prove!(size_of::<SetInquiry>() <= 400);

impl Inquiry for SetInquiry {
    ghost use Rattle.std.specs.Prelude.{[], ◌∷◌, ⊤};
    ghost use Rattle.page_locks.specs.declared.lock.LockName.TheVariants as names;
    ghost use Rattle.queue_model.specs.declared.call.Call.TheVariants as calls;
    ghost use Rattle.xsi_inquiry.specs.Seeking.{Tells, reads_left};
    ghost use Rattle.xsi_control.specs.SetAsked.{few_of_set, set_asks, set_asks_given, set_inserts};
    ghost use Rattle.xsi_control.specs.Setting.{set_decided, set_plan, set_wanted};

    type Arguments = SetArguments;

    ghost caller = { λ i. i.caller };

    ghost call = { λ a. calls.Set a };

    ghost wanted = { λ a i. set_wanted a i.sought };

    ghost locked = { λ a i. names.Queue a.id ∷ [] };

    ghost Knows = { λ a i room s. Tells a.id i.sought s };

    ghost Follows = { λ a i j. ⊤ };

    ghost left = { λ a i. reads_left i.sought };

    ghost decided = { λ a i. set_decided i.caller a i.sought };

    ghost plan = { λ a i. set_plan i.caller a i.sought };

    ghost asks = { λ a i names s t found covered agrees told.
        set_asks a i.sought s t found agrees.asked told };

    ghost asks_given = { λ a i names s t given agrees told.
        set_asks_given a i.sought s t given agrees.asked told };

    ghost few = { λ a i. few_of_set i.caller a i.sought };

    ghost inserts = { λ a i. set_inserts i.caller a i.sought };

    fn begin(by: Caller, arguments: &SetArguments) -> SetInquiry {
        SetInquiry {
            caller: by,
            sought: Sought::new(arguments.id),
        }
    }

    fn wants(&self, arguments: &SetArguments) -> Option<Wanted> {
        if arguments.qbytes > MAX_QBYTES {
            return None;
        }
        self.sought.wants(arguments.id)
    }

    fn take(
        &mut self,
        arguments: &SetArguments,
        found: Option<Record<'_>>,
        _room: &mut Room,
    ) -> Result<(), NotASystem> {
        self.sought.take(arguments.id, found)
    }

    fn take_given(&mut self, arguments: &SetArguments, given: bool) -> Result<(), NotASystem> {
        self.sought.take_given(arguments.id, given)
    }

    fn decide(&self, arguments: &SetArguments) -> Result<Decision, NotASystem> {
        if arguments.qbytes > MAX_QBYTES {
            return Ok(Decision::refuses(Errno::EINVAL));
        }
        match &self.sought {
            Sought::Found(queue) => match set_entry(self.caller, arguments, queue) {
                Ok(_) => Ok(Decision::Answers(Verdict::Done)),
                Err(errno) => Ok(Decision::refuses(errno)),
            },
            Sought::Refused(errno) => Ok(Decision::refuses(*errno)),
            Sought::Unread | Sought::Absent => Err(NotASystem),
        }
    }

    fn trial<'a>(&self, _arguments: &'a SetArguments, _place: usize) -> Option<Record<'a>> {
        None
    }

    fn write(&self, arguments: &SetArguments, slot: usize) -> Option<Write> {
        if arguments.qbytes > MAX_QBYTES {
            return None;
        }
        match (slot, &self.sought) {
            (0, Sought::Found(queue)) => {
                let changed = set_entry(self.caller, arguments, queue).ok()?;
                Some(Write::Replace(Record::Queue(changed)))
            }
            (_, _) => None,
        }
    }
}

/// The Queue with these settings, or how the call is refused on it: only the owner, the creator and
/// user 0 set, and only user 0 raises `qbytes`.
fn set_entry(
    caller: Caller,
    arguments: &SetArguments,
    queue: &QueueEntry,
) -> Result<QueueEntry, Errno>
    ensures { result ≡ set_entry caller arguments.now queue.now }
{
    if !permissions_in(queue).is_owned_by(caller) {
        return Err(Errno::EPERM);
    }
    if arguments.qbytes > queue.qbytes && caller.uid != SUPERUSER {
        return Err(Errno::EPERM);
    }
    Ok(with_settings(arguments, queue))
}

/// The Queue with these settings.
fn with_settings(arguments: &SetArguments, queue: &QueueEntry) -> QueueEntry
    ensures { result ≡ entry_with_settings arguments.now queue.now }
{
    let mut permissions = permissions_in(queue);
    permissions.change(arguments);
    QueueEntry {
        qbytes: arguments.qbytes,
        ctime: arguments.moment,
        uid: permissions.uid,
        gid: permissions.gid,
        mode: permissions.mode,
        ..*queue
    }
}
