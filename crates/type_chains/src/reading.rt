//! What is read off the record of a queue.

ghost use Rattle.std.specs.Prelude.{◌≡◌};
ghost use Rattle.type_chains.specs.Reading.{info_in, lacks_room_in, permissions_in};

use queue_model::{END_OF_SERIALS, Permissions, QueueInfo};
use queue_records::{MAX_MESSAGES, QueueEntry};

/// Owner, creator and mode.
pub fn permissions_in(queue: &QueueEntry) -> Permissions
    ensures { result ≡ permissions_in queue.now }
{
    Permissions {
        uid: queue.uid,
        gid: queue.gid,
        cuid: queue.cuid,
        cgid: queue.cgid,
        mode: queue.mode,
    }
}

/// Whether a body of this length has no room.
pub fn lacks_room_in(length: usize, queue: &QueueEntry) -> bool
    ensures { result ≡ lacks_room_in length queue.now }
{
    (queue.cbytes as usize).saturating_add(length) > queue.qbytes as usize
        || queue.qnum == MAX_MESSAGES
        || queue.next_serial == END_OF_SERIALS
}

/// What Stat tells.
pub fn info_in(queue: &QueueEntry) -> QueueInfo
    ensures { result ≡ info_in queue.now }
{
    QueueInfo {
        id: queue.id,
        key: queue.key,
        qnum: queue.qnum,
        cbytes: queue.cbytes,
        qbytes: queue.qbytes,
        lspid: queue.lspid,
        lrpid: queue.lrpid,
        stime: queue.stime,
        rtime: queue.rtime,
        ctime: queue.ctime,
        permissions: permissions_in(queue),
    }
}
