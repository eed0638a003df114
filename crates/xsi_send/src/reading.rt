//! The records that a Send reads, one after the other.

ghost use Rattle.std.specs.Prelude.{◌≡◌, ◌<◌, None, IfOk, Some};
ghost use Rattle.queue_model.specs.State.{State};
ghost use Rattle.queue_records.specs.Keys.{key_of_type};
ghost use Rattle.queue_records.specs.declared.record.Record.TheVariants as records;
ghost use Rattle.type_chains.specs.RecordOf.{record_of};
ghost use Rattle.xsi_inquiry.specs.Telling.{Gives, IsFiled, IsTold};
ghost use Rattle.xsi_send.specs.declared.stage.Stage.TheVariants.{AtNeighbour, AtType};
ghost use Rattle.xsi_send.specs.Knowing.{KnowsAt, asked, asks_left, begun_to, led_to};

use crate::stage::{Ahead, Walk};
use crate::type_place::TypePlace;
use queue_model::{Caller, SendArguments};
use queue_records::{MAX_MESSAGES, QueueEntry, TypeEntry};
use xsi_inquiry::NotASystem;

/// Where no Type of the message's type stands: its neighbours are sought from the lowest type up.
#[inline(always)]
pub fn walk(caller: Caller, arguments: &SendArguments, queue: &QueueEntry) -> Ahead
    ensures told { (s : State) → IsFiled s → KnowsAt caller arguments.now (AtType queue.now) s →
        record_of s (key_of_type arguments.now.id arguments.now.mtype) ≡ None →
        KnowsAt caller arguments.now (begun_to queue.now result) s }
    ensures fewer { asks_left (begun_to queue.now result) < asks_left (AtType queue.now) }
{
    match queue.lowest {
        None => Ahead::Ends(TypePlace::Between(None, None)),
        Some(next) => Ahead::Goes(next, MAX_MESSAGES),
    }
}

/// A Type on the way up. The types ascend, so the way ends.
#[inline(always)]
pub fn take_neighbour(
    caller: Caller,
    arguments: &SendArguments,
    walk: &Walk,
    entry: &TypeEntry,
) -> Result<Ahead, NotASystem>
    ensures told { (s : State) → IsFiled s → KnowsAt caller arguments.now (AtNeighbour walk.now) s →
        IsTold s (asked arguments.now (AtNeighbour walk.now)) (Some (records.Type entry.now)) →
        Gives result (λ ahead. KnowsAt caller arguments.now (led_to walk.now ahead) s) }
    ensures fewer { IfOk result (λ ahead. asks_left (led_to walk.now ahead)
        < asks_left (AtNeighbour walk.now)) }
{
    let Some(left) = walk.left.checked_sub(1) else {
        return Err(NotASystem);
    };
    if walk.next == arguments.mtype {
        return Err(NotASystem);
    }
    if walk.next > arguments.mtype {
        return Ok(Ahead::Ends(TypePlace::Between(walk.lower, Some(walk.next))));
    }
    let Some(next) = entry.higher else {
        return Ok(Ahead::Ends(TypePlace::Between(Some(walk.next), None)));
    };
    if next <= walk.next {
        return Err(NotASystem);
    }
    Ok(Ahead::Goes(next, left))
}
