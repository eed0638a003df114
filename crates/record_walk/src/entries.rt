//! The records that a queue needs.

ghost use Rattle.std.specs.Prelude.{◌≡◌, ◌<◌, pos, length, slice_index_or};
ghost use Rattle.record_walk.specs.Links.{ends_of};
ghost use Rattle.record_walk.specs.Words.{IsLawfulQueue, queue_entry, serials, type_entry, types};

use crate::lists::{first, first_type, last, type_before, type_behind};
use crate::of_type::Ends;
use queue_model::Queue;
use queue_records::{QueueEntry, TypeEntry};

/// The Queue of a queue, of its serials and its types.
pub(crate) fn queue_entry(queue: &Queue, all: &[u64], kinds: &[i64]) -> QueueEntry
    requires lawful { IsLawfulQueue queue.now }
    requires all { all.now ≡ serials queue.now.messages }
    requires kinds { kinds.now ≡ types queue.now.messages }
    ensures { result ≡ queue_entry queue.now }
{
    QueueEntry {
        id: queue.id,
        key: queue.key,
        qbytes: queue.qbytes,
        cbytes: queue.messages.total_bytes() as u32,
        qnum: queue.messages.len() as u32,
        lspid: queue.lspid,
        lrpid: queue.lrpid,
        stime: queue.stime,
        rtime: queue.rtime,
        ctime: queue.ctime,
        next_serial: queue.next_serial,
        first: first(all),
        last: last(all),
        lowest: first_type(kinds),
        uid: queue.permissions.uid,
        gid: queue.permissions.gid,
        cuid: queue.permissions.cuid,
        cgid: queue.permissions.cgid,
        mode: queue.permissions.mode,
    }
}

/// The Type of the type at a place, of all types and the ends of this one.
pub(crate) fn type_entry(queue: &Queue, place: usize, kinds: &[i64], ends: Ends) -> TypeEntry
    requires within { place < length kinds.now }
    requires kinds { kinds.now ≡ types queue.now.messages }
    requires ends { ends ≡ ends_of queue.now.messages (slice_index_or kinds.now place (pos 0)) }
    ensures { result ≡ type_entry queue.now (slice_index_or kinds.now place (pos 0)) }
{
    TypeEntry {
        id: queue.id,
        mtype: kinds[place],
        first: ends.first.unwrap_or(0),
        last: ends.last.unwrap_or(0),
        lower: type_before(kinds, place),
        higher: type_behind(kinds, place),
    }
}
