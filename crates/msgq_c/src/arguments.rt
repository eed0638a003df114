//! What C gives to a call.

ghost use Rattle.std.specs.Prelude.{◌≡◌};
ghost use Rattle.msgq_c.specs.Arguments.{get_of, given, receive_of, send_of, set_of};

use session::queue_model::{
    Body, Call, GetArguments, ReceiveArguments, SendArguments, SetArguments,
};

/// What `msgget` is given.
#[repr(C)]
pub struct GetCall {
    /// The key, where there is one.
    pub key: u32,
    /// Whether there is one: else the queue is private.
    pub has_key: bool,
    /// `IPC_CREAT`.
    pub create: bool,
    /// `IPC_EXCL`.
    pub excl: bool,
    /// The mode of a new queue.
    pub mode: u16,
    /// Seconds.
    pub moment: u64,
}

impl GetCall {
    /// The call.
    pub(crate) fn call(&self) -> Call
        ensures { result ≡ get_of self.now }
    {
        Call::Get(GetArguments {
            key: given(self.has_key, self.key),
            create: self.create,
            excl: self.excl,
            mode: self.mode,
            moment: self.moment,
        })
    }
}

/// What `msgsnd` is given beside the bytes.
#[repr(C)]
pub struct SendCall {
    /// The message's type.
    pub mtype: i64,
    /// Seconds.
    pub moment: u64,
    /// The queue.
    pub id: u32,
    /// `IPC_NOWAIT`.
    pub nowait: bool,
}

impl SendCall {
    /// The call with these bytes.
    pub(crate) fn call(&self, body: Body) -> Call
        ensures { result ≡ send_of self.now body }
    {
        Call::Send(SendArguments {
            id: self.id,
            mtype: self.mtype,
            body,
            nowait: self.nowait,
            moment: self.moment,
        })
    }
}

/// What `msgrcv` is given beside the room.
#[repr(C)]
pub struct ReceiveCall {
    /// Which message.
    pub mtype: i64,
    /// Seconds.
    pub moment: u64,
    /// The queue.
    pub id: u32,
    /// `IPC_NOWAIT`.
    pub nowait: bool,
    /// `MSG_NOERROR`.
    pub noerror: bool,
}

impl ReceiveCall {
    /// The call, by which so many bytes are taken at most.
    pub(crate) fn call(&self, size: u32) -> Call
        ensures { result ≡ receive_of self.now size }
    {
        Call::Receive(ReceiveArguments {
            id: self.id,
            size,
            mtype: self.mtype,
            nowait: self.nowait,
            noerror: self.noerror,
            moment: self.moment,
        })
    }
}

/// What `msgctl` is given with `IPC_SET`.
#[repr(C)]
pub struct SetCall {
    /// Seconds.
    pub moment: u64,
    /// The queue.
    pub id: u32,
    /// As many bytes may its messages have together.
    pub qbytes: u32,
    /// The owner's user, where it is given.
    pub uid: u32,
    /// The owner's group, where it is given.
    pub gid: u32,
    /// The mode, where it is given.
    pub mode: u16,
    /// Whether the user is given.
    pub has_uid: bool,
    /// Whether the group is given.
    pub has_gid: bool,
    /// Whether the mode is given.
    pub has_mode: bool,
}

impl SetCall {
    /// The call.
    pub(crate) fn call(&self) -> Call
        ensures { result ≡ set_of self.now }
    {
        let mode = if self.has_mode { Some(self.mode) } else { None };
        Call::Set(SetArguments {
            id: self.id,
            qbytes: self.qbytes,
            uid: given(self.has_uid, self.uid),
            gid: given(self.has_gid, self.gid),
            mode,
            moment: self.moment,
        })
    }
}

/// A number, where it is given.
fn given(is_given: bool, number: u32) -> Option<u32>
    ensures { result ≡ given is_given number }
{
    if is_given { Some(number) } else { None }
}
