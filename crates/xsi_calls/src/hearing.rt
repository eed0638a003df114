//! What an inquiry is told of the record that was found.

ghost use Rattle.std.specs.Prelude.{◌≡◌, Ok, OnErr, Some};
ghost use Rattle.std.specs.Prelude.{nat_lt, ℕ};
ghost use Rattle.queue_records.specs.declared.record.Record.TheVariants as records;
ghost use Rattle.xsi_calls.specs.QuestionWords.{Counter, asked_of};
ghost use Rattle.xsi_calls.specs.QuestionSteps.{Hears};

use call_writes::AnyInquiry;
use queue_model::Call;
use queue_records::Record;
use xsi_inquiry::{Inquiry, NotASystem, Room, Wanted, counter_in, tell, tell_given};

/// Tells an inquiry, which wants this, what was found at the key that it asked for, or by the
/// Counter that was found whether the id was given out. After an error both stand where they stood. It
/// stands in whoever asks, so that the record is not moved through memory to be heard.
#[inline(always)]
pub(crate) fn hear(
    inquiry: &mut AnyInquiry,
    room: &mut Room,
    call: &Call,
    wanted: Wanted,
    found: Option<Record<'_>>,
) -> Result<(), NotASystem>
    requires { asked_of call.now inquiry.old ≡ Some wanted }
    ensures hears { Hears call.now found.entry result
        (record { inquiry = inquiry.old; room = room.old })
        (record { inquiry = inquiry.new; room = room.new }) }
    ensures err { OnErr result ((inquiry.new ≡ inquiry.old) × (room.new ≡ room.old)) }
{
    match wanted {
        Wanted::At(_) => tell(inquiry, call, found, room),
        Wanted::Given(id) => tell_given(inquiry, call, is_given(found, id)?),
    }
}

/// Whether an id is below the next one of the Counter that was found.
fn is_given(found: Option<Record<'_>>, id: u32) -> Result<bool, NotASystem>
    ensures { (counter : Counter) → found.entry ≡ Some (records.Counter counter) →
        result ≡ Ok (nat_lt id counter.next_id) }
{
    let Some(entry) = found else {
        return Err(NotASystem);
    };
    let counter = counter_in(entry)?;
    Ok(id < counter.next_id)
}
