//! What calls are answered.

ghost use Rattle.std.specs.Prelude.{◌≡◌, IfOk};

use crate::errno::Errno;
use crate::message::Message;
use crate::permissions::Permissions;
use numbers::faults::NoMemory;

/// What Stat tells of a queue (`msqid_ds` of POSIX.1-2017, `<sys/msg.h>`).
#[derive(Clone, Copy, PartialEq)]
pub struct QueueInfo {
    /// The queue's id.
    pub id: u32,
    /// Its key, or none where it is private.
    pub key: Option<u32>,
    /// The number of its messages.
    pub qnum: u32,
    /// The bytes that its messages have together.
    pub cbytes: u32,
    /// As many bytes may its messages have together.
    pub qbytes: u32,
    /// The process of the last send, 0 before the first.
    pub lspid: u32,
    /// The process of the last receive, 0 before the first.
    pub lrpid: u32,
    /// The moment of the last send, 0 before the first.
    pub stime: u64,
    /// The moment of the last receive, 0 before the first.
    pub rtime: u64,
    /// The moment at which it was made or last set.
    pub ctime: u64,
    /// Its owner, creator and mode.
    pub permissions: Permissions,
}

/// An answer.
#[derive(Drop, PartialEq)]
pub enum Answer {
    /// To Get: the queue's id.
    Id(u32),
    /// To Send: the serial of the message.
    Sent(u64),
    /// To Receive: the message, which is off the queue.
    Received(Message),
    /// To Stat.
    Info(QueueInfo),
    /// To Set and Remove.
    Done,
    /// To any call: nothing changed.
    Refused(Errno),
}

impl Answer {
    /// An equal answer, where there is memory for it.
    pub fn try_copy(&self) -> Result<Answer, NoMemory>
        ensures { IfOk result (λ copy. copy ≡ self.now) }
    {
        match self {
            Answer::Id(id) => Ok(Answer::Id(*id)),
            Answer::Sent(serial) => Ok(Answer::Sent(*serial)),
            Answer::Received(message) => Ok(Answer::Received(message.try_copy()?)),
            Answer::Info(info) => Ok(Answer::Info(*info)),
            Answer::Done => Ok(Answer::Done),
            Answer::Refused(errno) => Ok(Answer::Refused(*errno)),
        }
    }
}
