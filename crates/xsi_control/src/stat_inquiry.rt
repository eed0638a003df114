//! Stat.

use queue_model::{Access, Caller, Errno};
use queue_records::Record;
use xsi_inquiry::type_chains::{info_in, permissions_in};
use xsi_inquiry::{Decision, Inquiry, NotASystem, Room, Sought, Verdict, Wanted, Write};

/// A Stat (POSIX.1-2017, `msgctl()` with `IPC_STAT`). It is given an id. It reads the Queue; where
/// there is none, it asks whether the id was given out.
#[derive(Clone, Copy)]
pub struct StatInquiry {
    caller: Caller,
    sought: Sought,
}

const _: () = prove!(size_of::<StatInquiry>() <= 400);

impl Inquiry for StatInquiry {
    ghost use Rattle.std.specs.Prelude.{[], ⊤};
    ghost use Rattle.std.proofs.Common.{inl, refl};
    ghost use Rattle.queue_model.specs.declared.call.Call.TheVariants as calls;
    ghost use Rattle.xsi_inquiry.specs.Seeking.{Tells, reads_left, sought_next};
    ghost use Rattle.xsi_inquiry.specs.Writing.{nothing};
    ghost use Rattle.xsi_inquiry.proofs.DecisionLemmas.{small_none};
    ghost use Rattle.xsi_inquiry.proofs.AskLemmas.{given_asks, sought_asks, sought_given};
    ghost use Rattle.xsi_control.specs.Stating.{stat_decided};

    type Arguments = u32;

    ghost caller = { λ i. i.caller };

    ghost call = { λ id. calls.Stat id };

    ghost wanted = { λ id i. sought_next id i.sought };

    ghost locked = { λ id i. [] };

    ghost Knows = { λ id i room s. Tells id i.sought s };

    ghost Follows = { λ id i j. ⊤ };

    ghost left = { λ id i. reads_left i.sought };

    ghost decided = { λ id i. stat_decided i.caller i.sought };

    ghost plan = { λ id i. nothing };

    ghost asks = { λ id i names s t found covered agrees told.
        sought_asks id i.sought s t found agrees.asked told };

    ghost asks_given = { λ id i names s t given agrees told.
        given_asks (sought_next id i.sought) id s t given agrees.asked
        (sought_given id i.sought) told };

    ghost few = { λ id i. small_none };

    ghost inserts = { λ id i. inl refl };

    fn begin(by: Caller, id: &u32) -> StatInquiry {
        StatInquiry {
            caller: by,
            sought: Sought::new(*id),
        }
    }

    fn wants(&self, id: &u32) -> Option<Wanted> {
        self.sought.wants(*id)
    }

    fn take(
        &mut self,
        id: &u32,
        found: Option<Record<'_>>,
        _room: &mut Room,
    ) -> Result<(), NotASystem> {
        self.sought.take(*id, found)
    }

    fn take_given(&mut self, id: &u32, given: bool) -> Result<(), NotASystem> {
        self.sought.take_given(*id, given)
    }

    fn decide(&self, _id: &u32) -> Result<Decision, NotASystem> {
        match &self.sought {
            Sought::Found(queue) => {
                if permissions_in(queue).keeps_out(Access::Read, self.caller) {
                    return Ok(Decision::refuses(Errno::EACCES));
                }
                Ok(Decision::Answers(Verdict::Info(info_in(queue))))
            }
            Sought::Refused(errno) => Ok(Decision::refuses(*errno)),
            Sought::Unread | Sought::Absent => Err(NotASystem),
        }
    }

    fn trial<'a>(&self, _id: &'a u32, _place: usize) -> Option<Record<'a>> {
        None
    }

    fn write(&self, _id: &u32, _slot: usize) -> Option<Write> {
        None
    }
}
