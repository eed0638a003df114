//! A file is served.

use crate::command_line::Task;
use crate::inbox::{INBOX_BYTES, Inbox};
use crate::trouble::{CLOCK, INPUT, OUTPUT, Trouble};
use rollback_journal::{Opening, SystemPair, open_with_calls};
use serving::frames::{DONE, Reply, put};
use serving::{Heard, Server, Unheard};
use std::fs::File;
use std::io::{self, ErrorKind, Write};
use std::process::ExitCode;
use std::time::{Duration, SystemTime, UNIX_EPOCH};

/// So many seconds another process that has the file is waited for.
const TURN: u64 = 10;

/// The server of a file of the system.
type FileServer = Server<SystemPair<File>>;

/// Serves a file to the end of what the relay says, and gives the exit status.
pub fn run(rt: &HostRuntime, task: &Task<'_>) -> ExitCode {
    match serve(rt, task) {
        Ok(()) => ExitCode::SUCCESS,
        Err(trouble) => {
            complain(rt, task.file, &trouble);
            ExitCode::FAILURE
        }
    }
}

/// Says on standard error why a file is not served.
fn complain(rt: &HostRuntime, file: &str, trouble: &Trouble) {
    let _ = writeln!(rt.stderr(), "msgqd: {file}: {trouble}");
}

/// Opens a file, tells the relay so or why not, and serves it.
fn serve(rt: &HostRuntime, task: &Task<'_>) -> Result<(), Trouble> {
    let Ok(mut inbox) = Inbox::new(rt.alloc()) else {
        return refuse(rt, Trouble::NoMemory);
    };
    match open(rt, task) {
        Ok(mut server) => begin(rt, &mut server, &mut inbox),
        Err(trouble) => refuse(rt, trouble),
    }
}

/// Tells the relay why the file is not open.
fn refuse(rt: &HostRuntime, trouble: Trouble) -> Result<(), Trouble> {
    greet(rt, trouble.number(), 0).and(Err(trouble))
}

/// Tells the relay that the file is open, and serves it.
fn begin(rt: &HostRuntime, server: &mut FileServer, inbox: &mut Inbox) -> Result<(), Trouble> {
    greet(rt, DONE, server.pages())?;
    attend(rt, server, inbox)
}

/// Opens the file once it has its turn.
fn open(rt: &HostRuntime, task: &Task<'_>) -> Result<FileServer, Trouble> {
    let opening = Opening {
        path: task.file,
        wait: Duration::from_secs(TURN),
    };
    let device = match open_with_calls(rt, opening) {
        Ok(device) => device,
        Err(error) => return Err(Trouble::NotFound(error)),
    };
    // (now, since another process may have had its turn for a while)
    let now = moment(rt)?;
    Server::open(rt.alloc(), device, task.waits, task.durability, now).map_err(Trouble::Unopened)
}

/// Tells the relay that the file is open, with its pages; or the number of a fault.
fn greet(rt: &HostRuntime, code: u32, value: u32) -> Result<(), Trouble> {
    let mut record = Vec::new(rt.alloc());
    let Ok(()) = put(&mut record, 0, 0, &Reply::Number { code, value }) else {
        return Err(Trouble::NoMemory);
    };
    put_out(rt, &record)
}

/// Writes bytes to standard output.
fn put_out(rt: &HostRuntime, bytes: &[u8]) -> Result<(), Trouble> {
    let mut output = io::writer(rt);
    let written = output.write_all(bytes);
    match written.and_then(|()| output.flush()) {
        Ok(()) => Ok(()),
        Err(error) => Err(Trouble::System(OUTPUT, error)),
    }
}

/// Hears what the relay says, group by group, and tells it what may be told behind each.
fn attend(rt: &HostRuntime, server: &mut FileServer, inbox: &mut Inbox) -> Result<(), Trouble> {
    for _ in 0..u64::MAX {
        if attend_once(rt, server, inbox)? == Heard::Ending {
            break;
        }
    }
    Ok(())
}

/// Hears one group, or that there is none yet. At the end of the input all is saved.
fn attend_once(
    rt: &HostRuntime,
    server: &mut FileServer,
    inbox: &mut Inbox,
) -> Result<Heard, Trouble> {
    match fill(rt, inbox)? {
        Came::Nothing => Ok(Heard::Going),
        Came::Bytes => answer(rt, server, inbox),
        Came::End => save(server),
    }
}

/// What a read of the relay's records came to.
#[derive(Clone, Copy)]
enum Came {
    /// Nothing is there yet, or a signal has ended it.
    Nothing,
    /// Some bytes.
    Bytes,
    /// The end of the input.
    End,
}

/// Reads what the relay has said. While the relay looks for what comes a read does not wait for it.
fn fill(rt: &HostRuntime, inbox: &mut Inbox) -> Result<Came, Trouble> {
    match inbox.fill(&mut rt.stdin()) {
        Ok(0) => Ok(Came::End),
        Ok(_) => Ok(Came::Bytes),
        Err(error) => without_bytes(error),
    }
}

/// What a read came to that failed: it is made again, or the server ends.
fn without_bytes(error: io::Error) -> Result<Came, Trouble> {
    if is_soon_over(error.kind()) {
        Ok(Came::Nothing)
    } else {
        Err(Trouble::System(INPUT, error))
    }
}

/// Whether a read is made again.
fn is_soon_over(kind: ErrorKind) -> bool {
    matches!(kind, ErrorKind::Interrupted | ErrorKind::WouldBlock)
}

/// Brings all that was decided to the file, at the end.
fn save(server: &mut FileServer) -> Result<Heard, Trouble> {
    match server.checkpoint() {
        Ok(()) => Ok(Heard::Ending),
        Err(why) => Err(Trouble::Uncommitted(why)),
    }
}

/// Hears the records that have come, and tells what may be told behind them.
fn answer(rt: &HostRuntime, server: &mut FileServer, inbox: &mut Inbox) -> Result<Heard, Trouble> {
    let now = moment(rt)?;
    match hear_all(server, inbox, now) {
        Ok(heard) => release(rt, server, heard),
        Err(Unheard::Failed { client }) => Err(give_up(rt, server, client)),
        Err(why) => Err(Trouble::Unheard(why)),
    }
}

/// Tells what may be told behind records of which this was heard.
fn release(rt: &HostRuntime, server: &mut FileServer, heard: Heard) -> Result<Heard, Trouble> {
    match server.release(&mut io::writer(rt)) {
        Ok(()) => Ok(heard),
        Err(why) => Err(Trouble::from(why)),
    }
}

/// Tells that the file has failed, this client first; and why the program ends.
fn give_up(rt: &HostRuntime, server: &mut FileServer, client: u64) -> Trouble {
    match server.give_up(client, &mut io::writer(rt)) {
        Ok(()) => Trouble::Failed,
        Err(why) => Trouble::from(why),
    }
}

/// Hears each record that has come whole.
fn hear_all(server: &mut FileServer, inbox: &mut Inbox, moment: u64) -> Result<Heard, Unheard> {
    for _ in 0..INBOX_BYTES {
        let Some(heard) = hear_next(server, inbox, moment)? else {
            break;
        };
        if heard == Heard::Ending {
            return Ok(heard);
        }
    }
    Ok(Heard::Going)
}

/// Hears the next record, where one has come whole.
fn hear_next(
    server: &mut FileServer,
    inbox: &mut Inbox,
    moment: u64,
) -> Result<Option<Heard>, Unheard> {
    match inbox.next() {
        Ok(Some(record)) => Ok(Some(server.hear(record, moment)?)),
        Ok(None) => Ok(None),
        Err(_) => Err(Unheard::Broken),
    }
}

/// The seconds of the clock since the beginning of 1970.
fn moment(rt: &HostRuntime) -> Result<u64, Trouble> {
    match SystemTime::now(rt) {
        Ok(now) => Ok(seconds_at(now)),
        Err(error) => Err(Trouble::System(CLOCK, error)),
    }
}

/// The seconds since the beginning of 1970; 0 before.
fn seconds_at(now: SystemTime) -> u64 {
    match now.duration_since(UNIX_EPOCH) {
        Ok(since) => since.as_secs(),
        Err(_) => 0,
    }
}
