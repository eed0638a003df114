//! Why a command of a shell is not done, and what is said of that.

use command_runs::{CommandError, info_on};
use interleaving_core::OpenFault;
use msgq_cli::{
    Ending, Failure, Plain, Stage, advise, complain, complain_of_fault, complain_of_refused,
};
use numbers::faults;
use page_device::FileDevice;
use queue_commands::{Command, ExitStatus, QueueName, Sending};
use queue_model::{Caller, Errno, MAX_MESSAGES, MAX_QBYTES, QueueInfo};
use rollback_journal::{OpenError, Refused};
use std::io;
use std::io::{ErrorKind, Write};

/// On which file and queue a command makes its calls, and for whom.
#[derive(Clone, Copy)]
pub struct Errand<'a> {
    /// The file.
    pub file: &'a str,
    /// The queue, where one is named.
    pub queue: Option<QueueName>,
    /// Who calls.
    pub caller: Caller,
}

/// What is not there, and may come.
#[derive(Clone, Copy, PartialEq, Eq)]
pub enum Awaited {
    /// The file.
    File,
    /// The queue of the key.
    Queue,
}

/// Why a command is not done.
#[derive(Drop)]
pub enum Trouble {
    /// The clock can't be read.
    Clock(io::Error),
    /// FILE is not opened with its journal.
    Unopened(OpenError),
    /// The command is not done on FILE; and what the system said where it refused a transfer.
    Undone(CommandError, Option<Refused>),
    /// Standard output refused what was looked at.
    Unshown(io::Error),
}

impl Trouble {
    /// Whether there is no message, or no room.
    pub fn is_not_now(&self) -> bool {
        self.status() == ExitStatus::NotNow
    }

    /// What is not there, and may come.
    pub fn awaits(&self) -> Option<Awaited> {
        match self {
            Trouble::Unopened(OpenError::Refused(Refused::File(error)))
                if error.kind() == ErrorKind::NotFound => { Some(Awaited::File) }
            Trouble::Undone(CommandError::Refused(Errno::ENOENT), _) => Some(Awaited::Queue),
            _ => None,
        }
    }

    /// Whether the queue is there already that was to be made.
    pub fn has_queue(&self) -> bool {
        matches!(
            self,
            Trouble::Undone(CommandError::Refused(Errno::EEXIST), _)
        )
    }

    /// The exit status of a command that ends by it.
    pub fn status(&self) -> ExitStatus {
        match self {
            Trouble::Undone(error, _) => error.status(),
            Trouble::Clock(_) | Trouble::Unopened(_) | Trouble::Unshown(_) => ExitStatus::Fault,
        }
    }

    /// Says it on standard error, and gives the exit status.
    pub fn tell(
        self,
        rt: &HostRuntime,
        errand: Errand<'_>,
        command: Option<&Command>,
    ) -> ExitStatus {
        let status = self.status();
        let mut errors = rt.stderr();
        match self {
            Trouble::Clock(error) => {
                complain("the clock", "it can't be read", &error, &mut errors);
            }
            Trouble::Unopened(error) => {
                let fault = error.number();
                let what = "it can't be opened";
                complain_of_fault(errand.file, what, fault, &error, &mut errors);
            }
            Trouble::Unshown(error) => {
                complain(
                    "standard output",
                    "it can't be written",
                    &error,
                    &mut errors,
                );
            }
            Trouble::Undone(error, refused) => {
                tell_undone(rt, errand, &error, refused, command, &mut errors);
            }
        }
        status
    }
}

/// What is known of a file that could not be written: what it holds, the next command finds.
fn tell_unwritten<E: Write>(file: &str, command: Option<&Command>, errors: &mut E) {
    let what = match command {
        Some(Command::Receive(_)) => "what was printed may be there still, and come again",
        Some(Command::Send(_)) => "it has all that was to be sent, or nothing of it",
        _ => "it is as before, or as it was to be",
    };
    let file = Plain(file);
    let _ = writeln!(errors, "msgq: {file}: {what}; nothing else is lost");
}

/// What is said where a command is not done on FILE.
fn tell_undone<E: Write>(
    rt: &HostRuntime,
    errand: Errand<'_>,
    error: &CommandError,
    refused: Option<Refused>,
    command: Option<&Command>,
    errors: &mut E,
) {
    match error {
        CommandError::Refused(errno) => tell_refusal(rt, errand, *errno, command, errors),
        CommandError::Unopened(fault) => {
            let ending = ending_of(*fault);
            complain_of_refused(errand.file, ending, refused, errors);
            advise(rt, errand.file, ending, errors);
        }
        _ => tell_failed(errand.file, error, refused.as_ref(), command, errors),
    }
}

/// What is said where FILE is opened, and no refusal of a call is why a command is not done.
fn tell_failed<E: Write>(
    file: &str,
    error: &CommandError,
    refused: Option<&Refused>,
    command: Option<&Command>,
    errors: &mut E,
) {
    if let CommandError::Unclosed(fault) = error {
        let what = "it can't be closed";
        match refused {
            Some(refused) => complain_of_fault(file, what, fault.number(), refused, errors),
            None => complain_of_fault(file, what, fault.number(), fault, errors),
        }
        tell_unwritten(file, command, errors);
        return;
    }
    if let Some(refused) = refused {
        complain(file, "a transfer failed", refused, errors);
    }
    match error {
        CommandError::Unprinted(why) => {
            let file = Plain(file);
            let _ = writeln!(errors, "msgq: standard output: {why}; {file} is unchanged");
        }
        _ => {
            let fault = error.number().unwrap_or(faults::FAILED);
            complain_of_fault(file, "nothing is done", fault, error, errors);
        }
    }
}

/// How a run on a file would have ended that is not opened for this.
fn ending_of(fault: OpenFault) -> Ending {
    match fault {
        OpenFault::Wrong(fault) => Ending::Unopened(fault),
        fault => Ending::Failed(Failure {
            stage: Stage::Opening,
            fault: fault.number(),
        }),
    }
}

/// `msgq: FILE: queue N: NAME: why`.
fn tell_refusal<E: Write>(
    rt: &HostRuntime,
    errand: Errand<'_>,
    errno: Errno,
    command: Option<&Command>,
    errors: &mut E,
) {
    let file = Plain(errand.file);
    let name = errno.name();
    let why = why(errno, errand.queue, command);
    let _ = match errand.queue {
        Some(QueueName::Key(key)) => write!(errors, "msgq: {file}: queue {key}: {name}: {why}"),
        Some(QueueName::Id(id)) => write!(errors, "msgq: {file}: queue @{id}: {name}: {why}"),
        None => write!(errors, "msgq: {file}: {name}: {why}"),
    };
    if errno == Errno::EAGAIN {
        tell_room(rt, errand, errors);
    }
    let _ = writeln!(errors, "");
}

/// Goes on to say of a queue without room what is on it, what may be, and what raises that.
fn tell_room<E: Write>(rt: &HostRuntime, errand: Errand<'_>, errors: &mut E) {
    let Some(queue) = errand.queue else {
        return;
    };
    let Some(info) = info_of(rt, errand.file, queue) else {
        return;
    };
    let file = Plain(errand.file);
    let id = info.id;
    if info.qnum >= MAX_MESSAGES {
        let _ = write!(
            errors,
            ": it has 1024 messages, as many as a queue may have"
        );
        return;
    }
    let _ = write!(errors, ": it has {} of {} bytes", info.cbytes, info.qbytes);
    let _ = if info.qbytes < MAX_QBYTES {
        write!(
            errors,
            "; 'msgq set {file} @{id} --qbytes {MAX_QBYTES} --uid 0' allows more"
        )
    } else {
        write!(errors, ", as many as a queue may have")
    };
}

/// What Stat tells of a queue of FILE, where FILE can be read.
fn info_of(rt: &HostRuntime, file: &str, queue: QueueName) -> Option<QueueInfo> {
    let device = FileDevice::open_read_only(rt, file).ok()?;
    info_on(rt.alloc(), device, queue)
}

/// What a refusal says to who asked from a shell (docs/QUEUES.md, "Calls").
fn why(errno: Errno, queue: Option<QueueName>, command: Option<&Command>) -> &'static str {
    match errno {
        Errno::E2BIG => "the message is longer than --size, and --noerror is not given; it stays",
        Errno::EAGAIN => "there is no room on it",
        Errno::EEXIST => "the key has a queue",
        Errno::EIDRM => "it was removed",
        Errno::EINTR => "the call would wait",
        Errno::EINVAL => match command {
            Some(Command::Send(Sending { mtype, .. })) if *mtype < 1 => {
                "the type of a message is at least 1"
            }
            Some(Command::Set(setting)) if setting.settings.qbytes.unwrap_or(0) > MAX_QBYTES => {
                "a limit is at most 65536 bytes"
            }
            _ => "no queue ever had this id",
        },
        Errno::ENOENT => match (queue, command) {
            (Some(QueueName::Id(_)), _) => "no queue has this id",
            (_, Some(Command::Send(_))) => "no queue has this key, and --create is not given",
            _ => "no queue has this key",
        },
        Errno::ENOMSG => match command {
            Some(Command::Receive(receiving)) if receiving.serial.is_some() => {
                "the message that the type selects has another serial, or there is none"
            }
            _ => "there is no message that the type selects",
        },
        Errno::ENOSPC => "256 queues are alive, or no id is left",
        Errno::EACCES => match command {
            Some(Command::Send(_)) => "its mode does not let the caller write",
            _ => "its mode does not let the caller read",
        },
        Errno::EPERM => match command {
            Some(Command::Make { .. } | Command::Send(_)) => {
                "only user 0 makes a queue of more than 16384 bytes: --uid 0 --owner N"
            }
            Some(Command::Set(setting)) if setting.settings.qbytes.is_some() => {
                "the caller is neither its owner, its creator nor user 0, or raises the limit and \
                is not user 0"
            }
            _ => "the caller is neither its owner, its creator nor user 0",
        },
    }
}
