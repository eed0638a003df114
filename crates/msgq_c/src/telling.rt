//! What C is told of an answer.

ghost use Rattle.std.specs.Prelude.{◌≡◌};
ghost use Rattle.msgq_c.specs.Telling.{IsInfo};

use session::queue_model::QueueInfo;

/// A message that was received, but for its bytes.
#[repr(C)]
#[derive(Clone, Copy)]
pub struct Got {
    /// Its number on its queue.
    pub serial: u64,
    /// Its type.
    pub mtype: i64,
    /// How many bytes it has.
    pub length: usize,
    /// The process that sent it.
    pub sender: u32,
}

/// What is known of a queue (`msqid_ds`).
#[repr(C)]
#[derive(Clone, Copy)]
pub struct Info {
    /// The moment of the last send, 0 before the first.
    pub stime: u64,
    /// The moment of the last receive, 0 before the first.
    pub rtime: u64,
    /// The moment at which it was made or last set.
    pub ctime: u64,
    /// The queue.
    pub id: u32,
    /// Its key, where it has one.
    pub key: u32,
    /// The number of its messages.
    pub qnum: u32,
    /// The bytes that its messages have together.
    pub cbytes: u32,
    /// As many bytes may its messages have together.
    pub qbytes: u32,
    /// The process of the last send, 0 before the first.
    pub lspid: u32,
    /// The process of the last receive, 0 before the first.
    pub lrpid: u32,
    /// The owner's user.
    pub uid: u32,
    /// The owner's group.
    pub gid: u32,
    /// The creator's user.
    pub cuid: u32,
    /// The creator's group.
    pub cgid: u32,
    /// Nine bits.
    pub mode: u16,
    /// Whether it has a key.
    pub has_key: bool,
}

impl Info {
    /// What Stat tells of a queue.
    pub(crate) fn of(info: &QueueInfo) -> Info
        ensures { IsInfo info.now result }
    {
        Info {
            stime: info.stime,
            rtime: info.rtime,
            ctime: info.ctime,
            id: info.id,
            key: info.key.unwrap_or(0),
            qnum: info.qnum,
            cbytes: info.cbytes,
            qbytes: info.qbytes,
            lspid: info.lspid,
            lrpid: info.lrpid,
            uid: info.permissions.uid,
            gid: info.permissions.gid,
            cuid: info.permissions.cuid,
            cgid: info.permissions.cgid,
            mode: info.permissions.mode,
            has_key: info.key.is_some(),
        }
    }
}
