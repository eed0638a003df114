//! The lines of a script, made one after the other of a session.

ghost use Rattle.std.specs.Prelude.{◌≡◌, ◌≤◌};
ghost use Rattle.session_runs.specs.Runs.{IsRun};
ghost use Rattle.session_runs.specs.Taking.{Asks, TakesCallIf, TakesCommand, decided_by, is_full, is_put_off, reply_to};

use interleavings::interleaving_core::MAX_DECIDED;
use msgq_cli::{Command, Ending, Output, Reply, Script};
use numbers::faults;
use page_device::PageDevice;
use queue_model::{Answer, Call, Caller};
use session::{Session, Unanswered};
use std::io::Write;

/// Runs the lines of a script one after the other, each for the caller of its seat, and prints what
/// each is replied.
///
/// Whatever the device gives: a line is printed for each line of the script, with what the session
/// made of its call. Where a call has to wait the system is stopped, and it is made again. A call is
/// replied fault 50 where a record had no room in the file, 60 where there is no memory, and 61
/// where it comes after as many answers as a session decides: the system is as it was. Where the
/// device fails the line is replied 62, and so is each call after it. Where the output refuses a
/// write the lines are run all the same.
pub fn run_lines<D: PageDevice + Drop, W: Write + Drop>(
    script: &Script,
    session: &mut Session<D>,
    output: &mut Output<W>,
) -> Ending
    ensures { IsRun script.now session.old session.new output.old output.new result }
{
    let mut ending = Ending::Done;
    let mut answered = 0;
    for line in script.lines() {
        let reply = reply(session, script.caller(line.seat), &line.command, answered);
        reply.print(line.number, output);
        ending = ending.after(&reply);
        answered += decided_by(&reply);
    }
    ending
}

/// What a command of a caller is replied, where so many calls of the run were answered.
fn reply<D: PageDevice + Drop>(
    session: &mut Session<D>,
    caller: Caller,
    command: &Command,
    answered: usize,
) -> Reply
    ensures { TakesCommand answered caller command.now result session.old session.new }
{
    match command {
        Command::Call(call) => call_as(session, caller, call, answered),
        Command::Stop => {
            session.stop();
            Reply::Stopped
        }
    }
}

/// What a call of a caller is replied, where so many calls of the run were answered.
fn call_as<D: PageDevice + Drop>(
    session: &mut Session<D>,
    caller: Caller,
    call: &Call,
    answered: usize,
) -> Reply
    ensures { TakesCallIf (is_full answered session.old) caller call.now result
        session.old session.new }
{
    if is_full(session, answered) {
        return Reply::Failed(faults::SESSION_FULL);
    }
    let Ok(mut copy) = call.try_copy() else {
        return Reply::Failed(faults::NO_MEMORY);
    };
    reply_to(ask(session, caller, &mut copy))
}

/// Whether so many calls of a run were answered that it may have no more. A failure of the file is
/// told first, by the session.
fn is_full<D: PageDevice + Drop>(session: &Session<D>, answered: usize) -> bool
    ensures { result ≡ is_full answered session.now }
{
    answered >= MAX_DECIDED && !session.has_failed()
}

/// What a call of a caller comes to. Where it has to wait the system is stopped, and it is made
/// again.
fn ask<D: PageDevice + Drop>(
    session: &mut Session<D>,
    caller: Caller,
    call: &mut Call,
) -> Result<Answer, Unanswered>
    ensures { Asks caller call.old result session.old session.new }
{
    let told = session.call_as(caller, call);
    if !is_put_off(&told) {
        return told;
    }
    session.stop();
    session.call_as(caller, call)
}

/// Whether a call has to wait.
fn is_put_off(told: &Result<Answer, Unanswered>) -> bool
    ensures { result ≡ is_put_off told.now }
{
    matches!(told, Err(Unanswered::Waits))
}

/// What a line is replied whose call came to this. A call that waits though the system is stopped is
/// one of a file that holds no system.
fn reply_to(told: Result<Answer, Unanswered>) -> Reply
    ensures { result ≡ reply_to told }
{
    match told {
        Ok(answer) => Reply::Answered(answer),
        Err(Unanswered::NoRoom) => Reply::Failed(faults::NO_ROOM),
        Err(Unanswered::NoMemory) => Reply::Failed(faults::NO_MEMORY),
        Err(Unanswered::Waits | Unanswered::Failed) => Reply::Failed(faults::FAILED),
    }
}

/// The calls that are decided where a line is replied this.
fn decided_by(reply: &Reply) -> usize
    ensures value { result ≡ decided_by reply.now }
    ensures few { result ≤ 1 }
{
    match reply {
        Reply::Answered(_) => 1,
        Reply::Stopped | Reply::Failed(_) => 0,
    }
}
