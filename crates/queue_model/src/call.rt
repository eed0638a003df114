//! The calls of message queues, with their arguments (POSIX.1-2017, `msgget`,
//! `msgsnd`, `msgrcv`, `msgctl`).

ghost use Rattle.std.specs.Prelude.{◌≡◌, IfOk};

use crate::body::Body;
use numbers::faults::NoMemory;

/// What `msgget` is given.
#[derive(Clone, Copy, Debug, PartialEq)]
pub struct GetArguments {
    /// The key, or none for a private queue (`IPC_PRIVATE`).
    pub key: Option<u32>,
    /// Make the queue where the key has none (`IPC_CREAT`).
    pub create: bool,
    /// With `create`: refuse where the key has a queue (`IPC_EXCL`).
    pub excl: bool,
    /// The mode of a new queue; the low nine bits count.
    pub mode: u16,
    /// Seconds; the `ctime` of a new queue.
    pub moment: u64,
}

/// What `msgsnd` is given.
#[derive(Debug, Drop, PartialEq)]
pub struct SendArguments {
    /// The queue.
    pub id: u32,
    /// The message's type.
    pub mtype: i64,
    /// The message's bytes.
    pub body: Body,
    /// Refuse in place of waiting (`IPC_NOWAIT`).
    pub nowait: bool,
    /// Seconds; becomes `stime`.
    pub moment: u64,
}

/// What `msgrcv` is given.
#[derive(Clone, Copy, Debug, PartialEq)]
pub struct ReceiveArguments {
    /// The queue.
    pub id: u32,
    /// As many bytes are taken at most.
    pub size: u32,
    /// 0 selects the first message, a type above 0 the first of that type, one below 0 the first of
    /// the lowest type that is at most its absolute value.
    pub mtype: i64,
    /// Refuse in place of waiting (`IPC_NOWAIT`).
    pub nowait: bool,
    /// Cut a message that is longer than `size` in place of refusing (`MSG_NOERROR`).
    pub noerror: bool,
    /// Seconds; becomes `rtime`.
    pub moment: u64,
}

/// What `msgctl` with `IPC_SET` is given.
#[derive(Clone, Copy, Debug, PartialEq)]
pub struct SetArguments {
    /// The queue.
    pub id: u32,
    /// The new `qbytes`.
    pub qbytes: u32,
    /// The new owner's user id; none keeps it.
    pub uid: Option<u32>,
    /// The new owner's group id; none keeps it.
    pub gid: Option<u32>,
    /// The new mode, of which the low nine bits count; none keeps it.
    pub mode: Option<u16>,
    /// Seconds; becomes `ctime`.
    pub moment: u64,
}

/// A call.
#[derive(Debug, Drop, PartialEq)]
pub enum Call {
    /// `msgget`: the id of a key's queue, or of a new queue.
    Get(GetArguments),
    /// `msgsnd`: puts a message last on a queue.
    Send(SendArguments),
    /// `msgrcv`: takes the message that a type selects.
    Receive(ReceiveArguments),
    /// `msgctl` with `IPC_STAT`: tells about a queue.
    Stat {
        /// The queue.
        id: u32,
    },
    /// `msgctl` with `IPC_SET`: changes `qbytes`, owner and mode.
    Set(SetArguments),
    /// `msgctl` with `IPC_RMID`: removes a queue and all its messages.
    Remove {
        /// The queue.
        id: u32,
    },
}

impl Call {
    /// An equal call, where there is memory for it.
    pub fn try_copy(&self) -> Result<Call, NoMemory>
        ensures { IfOk result (λ copy. copy ≡ self.now) }
    {
        match self {
            Call::Get(arguments) => Ok(Call::Get(*arguments)),
            Call::Send(arguments) => Ok(Call::Send(arguments.try_copy()?)),
            Call::Receive(arguments) => Ok(Call::Receive(*arguments)),
            Call::Stat { id } => Ok(Call::Stat { id: *id }),
            Call::Set(arguments) => Ok(Call::Set(*arguments)),
            Call::Remove { id } => Ok(Call::Remove { id: *id }),
        }
    }
}

impl SendArguments {
    /// Equal arguments, where there is memory for them.
    fn try_copy(&self) -> Result<SendArguments, NoMemory>
        ensures { IfOk result (λ copy. copy ≡ self.now) }
    {
        let body = self.body.try_copy()?;
        Ok(SendArguments { body, ..*self })
    }
}
