//! The messages of a queue are walked along their links.

ghost use Rattle.std.specs.Prelude.{◌≡◌, length, IsTrue, IfOk, IfErr};
ghost use Rattle.record_walk.specs.Fault.{IsCaused};
ghost use Rattle.record_walk.specs.Held.{AreLinked, IsStill};
ghost use Rattle.record_walk.specs.Systems.{IsWalkOf};
ghost use Rattle.record_walk.specs.Told.{IsToldOfWalk};

use crate::fault::WalkFault;
use crate::records::{MessageLinks, Records};
use numbers::limits::MAX_MESSAGES;
use queue_model::Messages;
use std::alloc::Global;

/// The messages of a queue in their order, and the links of each.
#[derive(Drop)]
pub(crate) struct Walked {
    pub(crate) messages: Messages,
    pub(crate) links: Vec<MessageLinks>,
}

/// The messages of the queue of an id, from its first on. The walk ends, since a queue has so many
/// messages at most.
pub(crate) fn walk<F: Records>(
    file: &mut F,
    alloc: Global,
    id: u32,
    first: Option<u64>,
) -> Result<Walked, WalkFault>
    ensures ok { IsTrue (F.is_honest file.old) →
        IfOk result (λ walked. IsWalkOf (F.held file.old) id first walked.messages) }
    ensures links { IsTrue (F.is_honest file.old) → IfOk result (λ walked.
        AreLinked (F.held file.old) id walked.messages walked.links.items) }
    ensures number { IfOk result (λ walked. length walked.links.items ≡ length walked.messages) }
    ensures err { IsTrue (F.is_honest file.old) →
        IfErr result (IsToldOfWalk (F.held file.old) id first) }
    ensures still { IsStill F.held F.pages F.is_honest F.fault_count file.old file.new }
    ensures cause { IsCaused (F.fault_count file.old) (F.fault_count file.new) result }
{
    let mut messages = Messages::new(alloc);
    let mut links = Vec::new(alloc);
    let mut next = first;
    'walk: while let Some(serial) = next {
        if messages.len() == MAX_MESSAGES as usize {
            return Err(WalkFault::WrongQueue { queue: id });
        }
        let Some(found) = file.message(alloc, id, serial)? else {
            return Err(WalkFault::WrongQueue { queue: id });
        };
        next = found.links.next;
        links.push(found.links)?;
        messages.push(found.message)?;
    }
    Ok(Walked { messages, links })
}
