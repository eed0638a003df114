//! The calls of trials as plain data, each made at the moment 1.

use queue_model::{Body, Call, GetArguments, ReceiveArguments, SendArguments, SetArguments};
use std::alloc::{AllocError, Global};

/// A text as long as any.
pub const LONG: &[u8] = &[b'a'; 1024];

/// A call.
#[derive(Clone, Copy)]
pub enum Ask {
    /// The queue of a key, made where there is none; all may read and write it.
    Get(u32),
    /// A queue may have so many bytes.
    Set(u32, u32),
    /// To a queue a message of this type and text.
    Send(u32, i64, &'static [u8]),
    /// The first message of a queue, of so many bytes at most.
    Receive(u32, u32),
    /// The state of a queue.
    Stat(u32),
}

impl Ask {
    /// The call.
    pub fn call(self, alloc: Global) -> Result<Call, AllocError> {
        match self {
            Ask::Get(key) => Ok(get(key)),
            Ask::Set(id, qbytes) => Ok(set(id, qbytes)),
            Ask::Send(id, mtype, text) => send(alloc, id, mtype, text),
            Ask::Receive(id, size) => Ok(receive(id, size)),
            Ask::Stat(id) => Ok(Call::Stat { id }),
        }
    }

    /// Whether it is this call.
    pub fn is(self, alloc: Global, call: &Call) -> bool {
        match self.call(alloc) {
            Ok(own) => own == *call,
            Err(_) => false,
        }
    }
}

fn get(key: u32) -> Call {
    Call::Get(GetArguments {
        key: Some(key),
        create: true,
        excl: false,
        mode: 0o666,
        moment: 1,
    })
}

fn set(id: u32, qbytes: u32) -> Call {
    Call::Set(SetArguments {
        id,
        qbytes,
        uid: None,
        gid: None,
        mode: None,
        moment: 1,
    })
}

fn send(alloc: Global, id: u32, mtype: i64, text: &[u8]) -> Result<Call, AllocError> {
    Ok(Call::Send(SendArguments {
        id,
        mtype,
        body: Body::new(Vec::from_slice(alloc, text)?),
        nowait: false,
        moment: 1,
    }))
}

fn receive(id: u32, size: u32) -> Call {
    Call::Receive(ReceiveArguments {
        id,
        size,
        mtype: 0,
        nowait: false,
        noerror: false,
        moment: 1,
    })
}
