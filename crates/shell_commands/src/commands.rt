//! The commands of a shell.

ghost use Rattle.std.specs.Prelude.{IfSome};
ghost use Rattle.command_runs.specs.Tasks.{CanBeMade, DeedHasPages, HasPages};

use crate::input::{make_file, read_messages};
use crate::looking::look;
use crate::own_ids::{STATUS, own_ids};
use crate::trouble::{Awaited, Errand, Trouble};
use crate::waiting::{MOST_LOOKS, Stamp, TURN, await_write, moment, patience_of, spent_since};
use command_runs::{
    CallerIds, Deed, Form, Look, Patience, Printer, Ran, ReceiveTask, SendTask, ShellTask,
    command_over,
};
use msgq_cli::{Plain, complain};
use queue_commands::{Command, ExitStatus, NewQueue, QueueName, Receiving, Request, Sending};
use queue_model::Caller;
use rollback_journal::{Opening, open_in_turn};
use std::io::Write;
use std::time::{Duration, Instant};
use std::{io, process};

/// Does what a command line asks for, and gives the exit status.
pub fn shell(rt: &HostRuntime, task: &ShellTask<'_>) -> ExitStatus
    requires pages { HasPages task.now }
{
    match caller_of(rt, task.ids) {
        Ok(caller) => {
            let errand = Errand {
                file: task.file,
                queue: task.deed.queue(),
                caller,
            };
            act(rt, errand, &task.deed)
        }
        Err(error) => {
            let what = "who calls is not known, so --uid and --gid are needed";
            complain(STATUS, what, &error, &mut rt.stderr());
            ExitStatus::Fault
        }
    }
}

/// Does it for who calls.
fn act(rt: &HostRuntime, errand: Errand<'_>, deed: &Deed) -> ExitStatus
    requires pages { DeedHasPages deed.now }
{
    match deed {
        Deed::Send(sending) => send(rt, errand, sending),
        Deed::Receive(task) => receive(rt, errand, task),
        Deed::Peek(receiving) => peek(rt, errand, *receiving),
        Deed::List { queue, is_json } => {
            let form = if *is_json { Form::Json } else { Form::Table };
            let what = match queue {
                Some(queue) => Look::Messages(*queue, form),
                None => Look::Queues(form),
            };
            look(rt, errand, &what)
        }
        Deed::Make { key, new } => {
            let command = Command::Make {
                key: *key,
                new: *new,
            };
            run(rt, errand, command, Patience::None)
        }
        Deed::Remove(queue) => {
            run(
                rt,
                errand,
                Command::Remove { queue: *queue },
                Patience::None,
            )
        }
        Deed::Set(setting) => run(rt, errand, Command::Set(*setting), Patience::None),
    }
}

/// Who calls: the process itself, for its real user and group, where it is not said.
fn caller_of(rt: &HostRuntime, ids: CallerIds) -> io::Result<Caller> {
    let pid = ids.pid.unwrap_or(process::id(rt.process()));
    let (uid, gid) = match (ids.uid, ids.gid) {
        (Some(uid), Some(gid)) => (uid, gid),
        (uid, gid) => {
            let (own_uid, own_gid) = own_ids(rt)?;
            (uid.unwrap_or(own_uid), gid.unwrap_or(own_gid))
        }
    };
    Ok(Caller { pid, uid, gid })
}

/// Sends standard input. Where it can't be one message, or one a line, nothing is opened.
fn send(rt: &HostRuntime, errand: Errand<'_>, task: &SendTask) -> ExitStatus
    requires pages { IfSome task.now.create CanBeMade }
{
    let mut errors = rt.stderr();
    let read = read_messages(rt, errand.file, task.names_input, task.framing, &mut errors);
    let bodies = match read {
        Ok(bodies) => bodies,
        Err(status) => return status,
    };
    if let Some(made) = task.create {
        if !make_file(rt, errand.file, made, &mut errors) {
            return ExitStatus::Fault;
        }
    }
    let command = Command::Send(Sending {
        queue: task.queue,
        create: task.create.map(|made| made.queue),
        mtype: task.mtype,
        bodies,
        tells: task.tells,
    });
    run(rt, errand, command, task.patience)
}

/// Receives messages. Where FILE is not there, or the queue, it is made if that is asked for.
fn receive(rt: &HostRuntime, errand: Errand<'_>, task: &ReceiveTask) -> ExitStatus
    requires pages { IfSome task.now.create CanBeMade }
{
    if let Some(made) = task.create {
        if !make_file(rt, errand.file, made, &mut rt.stderr()) {
            return ExitStatus::Fault;
        }
        if let Err(status) = make_queue(rt, errand, made.queue) {
            return status;
        }
    }
    run(rt, errand, Command::Receive(task.receiving), task.patience)
}

/// Makes the queue that is named where its key has none, and prints nothing of that. Where it can't
/// be made this is said.
fn make_queue(rt: &HostRuntime, errand: Errand<'_>, new: NewQueue) -> Result<(), ExitStatus> {
    let Some(QueueName::Key(key)) = errand.queue else {
        return Ok(());
    };
    let command = Command::Make {
        key: Some(key),
        new,
    };
    let mut request = Request { moment: 0, command };
    match run_unseen(rt, errand, &mut request) {
        Err(trouble) if !trouble.has_queue() => {
            Err(trouble.tell(rt, errand, Some(&request.command)))
        }
        _ => Ok(()),
    }
}

/// Runs a command that does not wait, and prints nothing of it.
fn run_unseen(rt: &HostRuntime, errand: Errand<'_>, request: &mut Request) -> Result<(), Trouble> {
    let mut unseen = Printer::new(Vec::new(rt.alloc()));
    run_once(rt, errand, Duration::ZERO, request, &mut unseen)
}

/// Prints the body that a receive would get.
fn peek(rt: &HostRuntime, errand: Errand<'_>, receiving: Receiving) -> ExitStatus {
    match moment(rt) {
        Ok(moment) => {
            let command = Command::Receive(receiving);
            look(rt, errand, &Look::Command(Request { moment, command }))
        }
        Err(error) => Trouble::Clock(error).tell(rt, errand, None),
    }
}

/// Runs a command, again as long as it may be done later, and says why it was not done. FILE is
/// opened anew each time, and not held between.
fn run(rt: &HostRuntime, errand: Errand<'_>, command: Command, patience: Patience) -> ExitStatus {
    let mut request = Request { moment: 0, command };
    match Instant::now(rt) {
        Ok(start) => run_since(rt, errand, &mut request, patience, start),
        Err(error) => Trouble::Clock(error).tell(rt, errand, None),
    }
}

/// So since a moment from which its patience counts.
fn run_since(
    rt: &HostRuntime,
    errand: Errand<'_>,
    request: &mut Request,
    patience: Patience,
    start: Instant,
) -> ExitStatus {
    let mut left = patience_of(patience);
    let mut has_said = false;
    for _ in 0..MOST_LOOKS {
        let before = Stamp::of(rt, errand.file);
        let Err(trouble) = run_seen(rt, errand, left, request) else {
            return ExitStatus::Done;
        };
        left = patience_of(patience).saturating_sub(spent_since(rt, start));
        let awaits = trouble.awaits();
        if left.is_zero() || (!trouble.is_not_now() && awaits.is_none()) {
            return trouble.tell(rt, errand, Some(&request.command));
        }
        if let Some(what) = awaits {
            if !has_said {
                say_awaited(errand, what, &mut rt.stderr());
                has_said = true;
            }
        }
        await_write(rt, errand.file, before, left);
    }
    ExitStatus::Fault
}

/// Runs a command, and prints its text on standard output.
fn run_seen(
    rt: &HostRuntime,
    errand: Errand<'_>,
    left: Duration,
    request: &mut Request,
) -> Result<(), Trouble> {
    let mut output = Printer::new(io::writer(rt));
    run_once(rt, errand, left, request, &mut output)
}

/// Says for what is waited that is not there yet.
fn say_awaited<E: Write>(errand: Errand<'_>, what: Awaited, errors: &mut E) {
    let file = Plain(errand.file);
    let _ = match (what, errand.queue) {
        (Awaited::Queue, Some(QueueName::Key(key))) => {
            writeln!(
                errors,
                "msgq: {file}: queue {key}: it is not there yet, and is waited for"
            )
        }
        _ => writeln!(
            errors,
            "msgq: {file}: it is not there yet, and is waited for"
        ),
    };
}

/// Runs a command once it has its turn, for which it waits as long as is left, or a little.
fn run_once<W: Write + Drop>(
    rt: &HostRuntime,
    errand: Errand<'_>,
    left: Duration,
    request: &mut Request,
    output: &mut Printer<W>,
) -> Result<(), Trouble> {
    let opening = Opening {
        path: errand.file,
        wait: left.max(Duration::from_secs(TURN)),
    };
    let device = open_in_turn(rt, opening).map_err(Trouble::Unopened)?;
    request.moment = moment(rt).map_err(Trouble::Clock)?;
    let Ran { device, came } = command_over(rt.alloc(), device, errand.caller, request, output);
    match came {
        Ok(()) => Ok(()),
        Err(error) => Err(Trouble::Undone(error, device.into_pair().into_refused())),
    }
}
