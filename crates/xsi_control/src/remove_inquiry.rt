//! A Remove as it asks for records.

ghost use Rattle.std.specs.Prelude.{◌≡◌, ℕ, IfSome, None, Option, slice_get};
ghost use Rattle.page_locks.specs.declared.lock.LockName.{LockName};
ghost use Rattle.queue_model.specs.State.{State};
ghost use Rattle.xsi_inquiry.specs.Rooms.{Roomful};
ghost use Rattle.xsi_inquiry.specs.Seeking.{IsKeyed};
ghost use Rattle.xsi_control.specs.Asking.{key_at, locked_at};
ghost use Rattle.xsi_control.specs.Removing.{names_of};

use crate::stage::Stage;
use page_locks::LockName;
use queue_model::Caller;
use queue_records::{Record, counter_key, queue_key};
use xsi_inquiry::{Decision, Inquiry, NotASystem, Room, Sweep, Wanted, Write};

/// A Remove (POSIX.1-2017, `msgctl()` with `IPC_RMID`). It is given an id. It has two phases, since
/// the names that it needs depend on the queue's key: it reads the Queue; then, under the names,
/// the Queue again and the Counter.
#[derive(Clone, Copy)]
pub struct RemoveInquiry {
    caller: Caller,
    stage: Stage,
}

const _: () = prove!(size_of::<RemoveInquiry>() <= 400);

impl RemoveInquiry {
    /// Between its two phases, the key of the queue that was found, which is none where the
    /// queue is private. It is all that the call keeps of the first phase, so it may hold no
    /// name there while others decide.
    pub fn key(&self) -> Option<Option<u32>>
        ensures value { result ≡ key_at self.now.stage }
        ensures keyed { IfSome result (λ key. (id : ℕ) (room : Roomful) (s : State) →
            ⟦<RemoveInquiry as Inquiry>⟧.Knows id self.now room s → IsKeyed id key s) }
        ensures carried { IfSome result (λ key. (id : ℕ) (room : Roomful) (s : State) →
            IsKeyed id key s → ⟦<RemoveInquiry as Inquiry>⟧.Knows id self.now room s) }
    {
        match &self.stage {
            Stage::Keyed(key) => Some(*key),
            Stage::Seeking(_) | Stage::Refused(_) | Stage::Counting(..) | Stage::Removing(_) =>
                None,
        }
    }

    /// The name at this place among those that it holds Exclusive, in the order in which they
    /// are taken: the queue's key, where it has one, the Counter and the queue. In its first
    /// phase there is none.
    pub fn name(&self, id: u32, place: usize) -> Option<LockName>
        ensures { result ≡ slice_get (locked_at id self.now.stage) place }
    {
        let key = match &self.stage {
            Stage::Seeking(_) | Stage::Refused(_) => return None,
            Stage::Keyed(key) | Stage::Counting(key, _) => *key,
            Stage::Removing(removal) => removal.key,
        };
        match (key, place) {
            (None, _) => name_behind(id, place),
            (Some(key), 0) => Some(LockName::Key(key)),
            (Some(_), _) => name_behind(id, place - 1),
        }
    }
}

impl Inquiry for RemoveInquiry {
    ghost use Rattle.queue_model.specs.declared.call.Call.TheVariants as calls;
    ghost use Rattle.xsi_control.specs.Asking.{FollowsAt, asked, asks_left, decided_at, locked_at, plan_at};
    ghost use Rattle.xsi_control.specs.Asked.{few_at, given_at, inserts_at, stage_asks};
    ghost use Rattle.xsi_control.specs.Knowing.{KnowsAt};

    type Arguments = u32;

    ghost caller = { λ i. i.caller };

    ghost call = { λ id. calls.Remove id };

    ghost wanted = { λ id i. asked id i.stage };

    ghost locked = { λ id i. locked_at id i.stage };

    ghost Knows = { λ id i room s. KnowsAt i.caller id i.stage s };

    ghost Follows = { λ id i j. FollowsAt i.stage j.stage };

    ghost left = { λ id i. asks_left i.stage };

    ghost decided = { λ id i. decided_at id i.stage };

    ghost plan = { λ id i. plan_at id i.stage };

    ghost asks = { λ id i names s t found covered agrees told.
        stage_asks id i.stage names s t found covered agrees told };

    ghost asks_given = { λ id i names s t given agrees told.
        given_at id i.stage names s t given agrees told };

    ghost few = { λ id i. few_at id i.stage };

    ghost inserts = { λ id i. inserts_at id i.stage };

    fn begin(by: Caller, id: &u32) -> RemoveInquiry {
        RemoveInquiry {
            caller: by,
            stage: Stage::begin(*id),
        }
    }

    fn wants(&self, id: &u32) -> Option<Wanted> {
        match &self.stage {
            Stage::Seeking(sought) => sought.wants(*id),
            Stage::Keyed(_) => Some(Wanted::At(queue_key(*id))),
            Stage::Counting(..) => Some(Wanted::At(counter_key())),
            Stage::Refused(_) | Stage::Removing(_) => None,
        }
    }

    fn take(
        &mut self,
        id: &u32,
        found: Option<Record<'_>>,
        _room: &mut Room,
    ) -> Result<(), NotASystem> {
        self.stage = self.stage.take(self.caller, *id, found)?;
        Ok(())
    }

    fn take_given(&mut self, id: &u32, given: bool) -> Result<(), NotASystem> {
        self.stage = self.stage.take_given(*id, given)?;
        Ok(())
    }

    fn decide(&self, id: &u32) -> Result<Decision, NotASystem> {
        match &self.stage {
            Stage::Refused(errno) => Ok(Decision::refuses(*errno)),
            Stage::Removing(removal) => Ok(Decision::Sweeps(Sweep {
                id: *id,
                first: removal.first,
            })),
            Stage::Seeking(_) | Stage::Keyed(_) | Stage::Counting(..) => Err(NotASystem),
        }
    }

    fn trial<'a>(&self, _id: &'a u32, _place: usize) -> Option<Record<'a>> {
        None
    }

    fn write(&self, id: &u32, slot: usize) -> Option<Write> {
        match &self.stage {
            Stage::Removing(removal) => removal.write(*id, slot),
            Stage::Seeking(_) | Stage::Refused(_) | Stage::Keyed(_) | Stage::Counting(..) => None,
        }
    }
}

/// The name at this place behind that of a key: the Counter, and then the queue.
fn name_behind(id: u32, place: usize) -> Option<LockName>
    ensures { result ≡ slice_get (names_of id None) place }
{
    match place {
        0 => Some(LockName::Counter),
        1 => Some(LockName::Queue(id)),
        _ => None,
    }
}
