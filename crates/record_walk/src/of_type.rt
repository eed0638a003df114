//! The links from each message to the next of its type, and both ends of each type.

ghost use Rattle.std.specs.Prelude.{◌≡◌, ℕ, map, IfOk};
ghost use Rattle.std.specs.List.{AllPairs};
ghost use Rattle.record_walk.specs.Links.{AreTypeLinks, IsAscending, with_front};
ghost use Rattle.record_walk.specs.Words.{types};

use crate::lists::place_of_type;
use numbers::faults::NoMemory;
use queue_model::Messages;
use std::alloc::Global;

/// The serials of the first and the last message of a type.
#[derive(Clone, Copy)]
pub(crate) struct Ends {
    pub(crate) first: Option<u64>,
    pub(crate) last: Option<u64>,
}

impl Ends {
    /// Those of one message more, in front of the others.
    fn with_front(self, serial: u64) -> Ends
        ensures { result ≡ with_front serial self }
    {
        Ends {
            first: Some(serial),
            last: match self.last {
                Some(last) => Some(last),
                None => Some(serial),
            },
        }
    }
}

/// Of each message the serial of the next of its type, and of each type its ends.
#[derive(Drop)]
pub(crate) struct TypeLinks {
    pub(crate) next: Vec<Option<u64>>,
    pub(crate) ends: Vec<Ends>,
}

/// The links of messages of these types. From the last message on, each is put in front of those of
/// its type.
pub(crate) fn type_links(
    alloc: Global,
    messages: &Messages,
    kinds: &[i64],
) -> Result<TypeLinks, NoMemory>
    requires kinds { kinds.now ≡ types messages.now }
    requires ascend { IsAscending messages.now }
    ensures { IfOk result (AreTypeLinks messages.now kinds.now) }
{
    let none = Ends {
        first: None,
        last: None,
    };
    let mut next = vec![in alloc; None; messages.len()]?;
    let mut ends = vec![in alloc; none; kinds.len()]?;
    for back in 0..messages.len() {
        let place = messages.len() - 1 - back;
        let message = messages.get(place);
        let kind = place_of_type(kinds, message.mtype);
        let end = ends[kind];
        next[place] = end.first;
        ends[kind] = end.with_front(message.serial);
    }
    Ok(TypeLinks { next, ends })
}
