//! Calls, as a line of a script has them (docs/SCRIPTS.md).

use crate::words::{Words, Wrong};
use queue_model::{Call, GetArguments, ReceiveArguments, SendArguments, SetArguments};
use schedules::{key, mode, number, signed};
use std::alloc::Global;

/// The mode of a queue that is made by a `get` with no `mode=`.
const DEFAULT_MODE: u16 = 0o666;

/// More options than any call has.
const MOST_OPTIONS: u32 = 8;

/// Which call is made.
#[derive(Clone, Copy)]
enum Verb {
    Get,
    Send,
    Receive,
    Stat,
    Set,
    Remove,
}

/// The calls by their names.
const VERBS: [(&[u8], Verb); 6] = [
    (b"get", Verb::Get),
    (b"snd", Verb::Send),
    (b"rcv", Verb::Receive),
    (b"stat", Verb::Stat),
    (b"set", Verb::Set),
    (b"rm", Verb::Remove),
];

/// The call that the words behind a seat are, made at this moment.
pub fn read(alloc: Global, words: &mut Words<'_>, moment: u64) -> Result<Call, Wrong> {
    let verb = words.one_of(&VERBS, "get, snd, rcv, stat, set or rm")?;
    match verb {
        Verb::Get => get(words, moment),
        Verb::Send => send(alloc, words, moment),
        Verb::Receive => receive(words, moment),
        Verb::Stat => {
            let id = words.number("a queue")?;
            Ok(Call::Stat { id })
        }
        Verb::Set => set(words, moment),
        Verb::Remove => {
            let id = words.number("a queue")?;
            Ok(Call::Remove { id })
        }
    }
}

/// `KEY` or `private`, then any of `create`, `excl`, `mode=OOO`.
fn get(words: &mut Words<'_>, moment: u64) -> Result<Call, Wrong> {
    let wrong = Wrong::Wanted("a key or private, and create, excl or mode=OOO");
    let mut arguments = GetArguments {
        key: key(words.next().ok_or(wrong)?).ok_or(wrong)?,
        create: false,
        excl: false,
        mode: DEFAULT_MODE,
        moment,
    };
    for _ in 0..MOST_OPTIONS {
        let Some(word) = words.next() else {
            break;
        };
        add_to_get(&mut arguments, word).ok_or(wrong)?;
    }
    Ok(Call::Get(arguments))
}

/// Adds an option to a `get`, if it has such.
fn add_to_get(arguments: &mut GetArguments, word: &[u8]) -> Option<()> {
    if word == b"create".as_slice() {
        arguments.create = true;
    } else if word == b"excl".as_slice() {
        arguments.excl = true;
    } else {
        arguments.mode = mode(word.strip_prefix(b"mode=")?)?;
    }
    Some(())
}

/// The type of a message.
fn mtype(words: &mut Words<'_>) -> Result<i64, Wrong> {
    let wrong = Wrong::Wanted("a type");
    signed(words.next().ok_or(wrong)?).ok_or(wrong)
}

/// `ID TYPE HEX`, then optionally `nowait`.
fn send(alloc: Global, words: &mut Words<'_>, moment: u64) -> Result<Call, Wrong> {
    let id = words.number("a queue")?;
    let mtype = mtype(words)?;
    let body = words.bytes(alloc)?;
    Ok(Call::Send(SendArguments {
        id,
        mtype,
        body,
        nowait: is_nowait(words)?,
        moment,
    }))
}

/// Whether the next word, the last one, is `nowait`.
fn is_nowait(words: &mut Words<'_>) -> Result<bool, Wrong> {
    match words.next() {
        None => Ok(false),
        Some(word) if word == b"nowait".as_slice() => Ok(true),
        Some(_) => Err(Wrong::Wanted("nowait or nothing")),
    }
}

/// `ID SIZE TYPE`, then any of `nowait`, `noerror`.
fn receive(words: &mut Words<'_>, moment: u64) -> Result<Call, Wrong> {
    let id = words.number("a queue")?;
    let size = words.number("a number of bytes")?;
    let mut arguments = ReceiveArguments {
        id,
        size,
        mtype: mtype(words)?,
        nowait: false,
        noerror: false,
        moment,
    };
    for _ in 0..MOST_OPTIONS {
        let Some(word) = words.next() else {
            break;
        };
        if word == b"nowait".as_slice() {
            arguments.nowait = true;
        } else if word == b"noerror".as_slice() {
            arguments.noerror = true;
        } else {
            return Err(Wrong::Wanted("nowait, noerror or nothing"));
        }
    }
    Ok(Call::Receive(arguments))
}

/// `ID QBYTES`, then any of `uid=N`, `gid=N`, `mode=OOO`.
fn set(words: &mut Words<'_>, moment: u64) -> Result<Call, Wrong> {
    let wrong = Wrong::Wanted("uid=N, gid=N or mode=OOO");
    let id = words.number("a queue")?;
    let mut arguments = SetArguments {
        id,
        qbytes: words.number("a number of bytes")?,
        uid: None,
        gid: None,
        mode: None,
        moment,
    };
    for _ in 0..MOST_OPTIONS {
        let Some(word) = words.next() else {
            break;
        };
        add_to_set(&mut arguments, word).ok_or(wrong)?;
    }
    Ok(Call::Set(arguments))
}

/// Adds an option to a `set`, if it has such.
fn add_to_set(arguments: &mut SetArguments, word: &[u8]) -> Option<()> {
    if let Some(digits) = word.strip_prefix(b"uid=") {
        arguments.uid = Some(number(digits)?);
    } else if let Some(digits) = word.strip_prefix(b"gid=") {
        arguments.gid = Some(number(digits)?);
    } else {
        arguments.mode = Some(mode(word.strip_prefix(b"mode=")?)?);
    }
    Some(())
}
