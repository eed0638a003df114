//! Why a call is refused: POSIX's names, and the numbers that this project gives them.

ghost use Rattle.std.specs.Prelude.{◌≡◌};
ghost use Rattle.queue_model.specs.Errnos.{number_of, name_of};

/// The refusals of message queues (POSIX.1-2017, `<errno.h>`). What each is for
/// stands in docs/QUEUES.md.
#[derive(Clone, Copy, Debug, PartialEq, Eq)]
pub enum Errno {
    /// The message is longer than the size asked for.
    E2BIG,
    /// There is no room, and the caller does not wait.
    EAGAIN,
    /// The key has a queue, and the caller wants a new one.
    EEXIST,
    /// The queue was removed.
    EIDRM,
    /// The call would wait, and the system is stopped.
    EINTR,
    /// An argument is out of range, or the id was never given out.
    EINVAL,
    /// The key has no queue, and none is to be made.
    ENOENT,
    /// No message is selected, and the caller does not wait.
    ENOMSG,
    /// As many queues are alive as may be, or no id is left.
    ENOSPC,
    /// The mode does not permit the caller to read, or to write.
    EACCES,
    /// The caller is neither owner, creator nor user 0; or raises `qbytes` and is not user 0.
    EPERM,
}

impl Errno {
    /// The number of this refusal, from 1 to 11. It is this project's own and no system's.
    pub fn number(self) -> u8
        ensures { result ≡ number_of self }
    {
        match self {
            Errno::E2BIG => 1,
            Errno::EAGAIN => 2,
            Errno::EEXIST => 3,
            Errno::EIDRM => 4,
            Errno::EINTR => 5,
            Errno::EINVAL => 6,
            Errno::ENOENT => 7,
            Errno::ENOMSG => 8,
            Errno::ENOSPC => 9,
            Errno::EACCES => 10,
            Errno::EPERM => 11,
        }
    }

    /// The name as POSIX spells it.
    pub fn name(self) -> &'static str
        ensures { result.now ≡ name_of self }
    {
        match self {
            Errno::E2BIG => "E2BIG",
            Errno::EAGAIN => "EAGAIN",
            Errno::EEXIST => "EEXIST",
            Errno::EIDRM => "EIDRM",
            Errno::EINTR => "EINTR",
            Errno::EINVAL => "EINVAL",
            Errno::ENOENT => "ENOENT",
            Errno::ENOMSG => "ENOMSG",
            Errno::ENOSPC => "ENOSPC",
            Errno::EACCES => "EACCES",
            Errno::EPERM => "EPERM",
        }
    }
}
