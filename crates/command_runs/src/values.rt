//! The values of arguments.

ghost use Rattle.std.specs.Prelude.{IfOk, IfSome};
ghost use Rattle.clap.specs.Matches.{found_of};
ghost use Rattle.msgq_cli.specs.Tasks.{IsFileSize};
ghost use Rattle.command_runs.specs.Tasks.{CallsAs, CanBeMade, IsNumberOf};

use crate::key::queue_name;
use crate::mistake::Mistake;
use crate::task::{CallerIds, Creation, Patience};
use clap::ArgMatches;
use msgq_cli::argument_names::{
    BODY, CREATE, FOR_EVER, GID, GROUP, KEY, MODE, NEW_PAGES, OWNER, PID, QBYTES, SERIAL,
    SHARED_WITH, TYPE, UID, WAIT,
};
use msgq_cli::{STANDARD_INPUT, USUAL_PAGES, WRONG_SECONDS, wait_of};
use queue_commands::{NewQueue, QueueName, Settings};

/// The mode of a queue that is made where none is given, and of one that is shared with a group.
const OWNER_ALONE: u16 = 0o600;

const SHARED: u16 = 0o660;

const WRONG_KEY: &str =
    "KEY, a number of 32 bits, decimal or behind 0x hexadecimal, or @ and an id";

const WRONG_NEW_KEY: &str =
    "KEY of a new queue, a number of 32 bits, decimal or behind 0x hexadecimal, or private";

const WRONG_NUMBER: &str = "number of 32 bits, in decimal digits alone";

const WRONG_TYPE: &str = "type, a decimal number of 64 bits";

const WRONG_MODE: &str = "mode, three octal digits, as 640 or 0640";

const WRONG_SERIAL: &str = "serial, a decimal number of 64 bits";

const WRONG_PAGES: &str = "number of pages, a decimal number from 258 to 65536, without a sign";

const WRONG_BODY: &str = "body, which standard input gives: - or nothing stands there";

/// The queue that is named.
pub(crate) fn queue<'a>(given: &ArgMatches<'a>) -> Result<QueueName, Mistake<'a>> {
    let word = given.get_str(KEY).unwrap_or("");
    queue_name(word.as_bytes()).ok_or(Mistake::new(word, WRONG_KEY))
}

/// The queue that is named, if one is.
pub(crate) fn any_queue<'a>(given: &ArgMatches<'a>) -> Result<Option<QueueName>, Mistake<'a>> {
    match given.get_str(KEY) {
        Some(_) => Ok(Some(queue(given)?)),
        None => Ok(None),
    }
}

/// The key of a queue that is made, or none for a private one.
pub(crate) fn new_key<'a>(given: &ArgMatches<'a>) -> Result<Option<u32>, Mistake<'a>> {
    let word = given.get_str(KEY).unwrap_or("");
    if word == "private" {
        return Ok(None);
    }
    match queue_name(word.as_bytes()) {
        Some(QueueName::Key(key)) => Ok(Some(key)),
        _ => Err(Mistake::new(word, WRONG_NEW_KEY)),
    }
}

/// Who calls.
pub(crate) fn ids<'a>(given: &ArgMatches<'a>) -> Result<CallerIds, Mistake<'a>>
    ensures { IfOk result (CallsAs (found_of given.now)) }
{
    Ok(CallerIds {
        pid: number(given, PID)?,
        uid: number(given, UID)?,
        gid: number(given, GID)?,
    })
}

/// The number of an option.
pub(crate) fn number<'a>(given: &ArgMatches<'a>, name: &str) -> Result<Option<u32>, Mistake<'a>>
    ensures { IfOk result (IsNumberOf (found_of given.now) name.now) }
{
    let Some(word) = given.get_str(name) else {
        return Ok(None);
    };
    match schedules::number(word.as_bytes()) {
        Some(number) => Ok(Some(number)),
        None => Err(Mistake::new(word, WRONG_NUMBER)),
    }
}

/// The type that is given.
pub(crate) fn mtype<'a>(given: &ArgMatches<'a>) -> Result<Option<i64>, Mistake<'a>> {
    let Some(word) = given.get_str(TYPE) else {
        return Ok(None);
    };
    match schedules::signed(word.as_bytes()) {
        Some(mtype) => Ok(Some(mtype)),
        None => Err(Mistake::new(word, WRONG_TYPE)),
    }
}

/// The mode that is given.
pub(crate) fn mode<'a>(given: &ArgMatches<'a>) -> Result<Option<u16>, Mistake<'a>> {
    let Some(word) = given.get_str(MODE) else {
        return Ok(None);
    };
    let digits = match word.as_bytes() {
        [b'0', digits @ ..] if digits.len() == 3 => digits,
        digits => digits,
    };
    match schedules::mode(digits) {
        Some(mode) => Ok(Some(mode)),
        None => Err(Mistake::new(word, WRONG_MODE)),
    }
}

/// The serial that is given.
pub(crate) fn serial<'a>(given: &ArgMatches<'a>) -> Result<Option<u64>, Mistake<'a>> {
    let Some(word) = given.get_str(SERIAL) else {
        return Ok(None);
    };
    match word.parse() {
        Ok(serial) => Ok(Some(serial)),
        Err(_) => Err(Mistake::new(word, WRONG_SERIAL)),
    }
}

/// How a queue is made. One that is shared with a group is that group's, and it may send and receive.
pub(crate) fn new_queue<'a>(given: &ArgMatches<'a>) -> Result<NewQueue, Mistake<'a>> {
    let shared = number(given, SHARED_WITH)?;
    let usual = if shared.is_some() {
        SHARED
    } else {
        OWNER_ALONE
    };
    let qbytes = number(given, QBYTES)?;
    let uid = number(given, OWNER)?;
    let gid = match number(given, GROUP)? {
        Some(group) => Some(group),
        None => shared,
    };
    let settings = if qbytes.is_some() || uid.is_some() || gid.is_some() {
        Some(Settings {
            qbytes,
            uid,
            gid,
            mode: None,
        })
    } else {
        None
    };
    Ok(NewQueue {
        mode: mode(given)?.unwrap_or(usual),
        settings,
    })
}

/// What is made where it is not there, if anything is.
pub(crate) fn creation<'a>(given: &ArgMatches<'a>) -> Result<Option<Creation>, Mistake<'a>>
    ensures { IfOk result (λ made. IfSome made CanBeMade) }
{
    if !given.get_flag(CREATE) {
        return Ok(None);
    }
    Ok(Some(Creation {
        queue: new_queue(given)?,
        pages: pages(given)?.unwrap_or(USUAL_PAGES),
        group: number(given, SHARED_WITH)?,
    }))
}

/// How many pages a file has that is made.
fn pages<'a>(given: &ArgMatches<'a>) -> Result<Option<u32>, Mistake<'a>>
    ensures { IfOk result (λ pages. IfSome pages IsFileSize) }
{
    let Some(word) = given.get_str(NEW_PAGES) else {
        return Ok(None);
    };
    match msgq_cli::pages(word.as_bytes()) {
        Some(pages) => Ok(Some(pages)),
        None => Err(Mistake::new(word, WRONG_PAGES)),
    }
}

/// Whether standard input is named as the body.
pub(crate) fn names_input<'a>(given: &ArgMatches<'a>) -> Result<bool, Mistake<'a>> {
    match given.get_str(BODY) {
        None => Ok(false),
        Some(word) if word == STANDARD_INPUT => Ok(true),
        Some(word) => Err(Mistake::new(word, WRONG_BODY)),
    }
}

/// How long a command looks again.
pub(crate) fn patience<'a>(given: &ArgMatches<'a>) -> Result<Patience, Mistake<'a>> {
    let Some(word) = given.get_str(WAIT) else {
        return Ok(Patience::None);
    };
    if word == FOR_EVER {
        return Ok(Patience::Endless);
    }
    match wait_of(word.as_bytes()) {
        Some(time) => Ok(Patience::For(time)),
        None => Err(Mistake::new(word, WRONG_SECONDS)),
    }
}
