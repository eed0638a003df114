//! Who makes a call.

/// The process that makes a call, with its effective user and group.
#[derive(Clone, Copy, PartialEq, Eq)]
pub struct Caller {
    /// Process id: a queue's `lspid` after a send, its `lrpid` after a receive.
    pub pid: u32,
    /// Effective user id.
    pub uid: u32,
    /// Effective group id.
    pub gid: u32,
}
