//! The commands of a script.

ghost use Rattle.std.specs.Option.{option_map};
ghost use Rattle.msgq_cli.specs.Commands.{get_of, send_of, receive_of, stat_of, set_of, remove_of};
ghost use Rattle.msgq_cli.specs.Commands.{command_of};
ghost use Rattle.msgq_cli.specs.Unread.{IsRead, Takes, alone, next};
ghost use Rattle.schedules.specs.Numbers.{number_of, signed_of};
ghost use Rattle.schedules.specs.Words.{texts};

use crate::mistake::{Expected, Optional, Unread};
use crate::options::Options;
use queue_model::{Call, GetArguments, ReceiveArguments, SendArguments, SetArguments};
use schedules::{Refusal, body, is_word, key, number, signed};
use std::alloc::Global;

/// The mode of a queue that is made by a `get` with no `mode=`: 666 in octal digits.
pub const DEFAULT_MODE: u16 = 0o666;

/// What a line asks for.
#[derive(Drop)]
pub enum Command {
    /// A call, made by the seat's caller at the moment of the line's number.
    Call(Call),
    /// From here on no call waits.
    Stop,
}

/// The command of a line's words from the second on, which follow the seat.
pub(crate) fn read_command(alloc: Global, moment: u64, words: &[&[u8]]) -> Result<Command, Unread>
    ensures { IsRead result (command_of moment (texts words.now)) }
{
    let wrong = Unread::at(2, Expected::Command);
    let [verb, arguments @ ..] = words else {
        return Err(wrong);
    };
    // Each returns what it reads, since joined branches that own a call are dear to prove.
    if is_word(verb, b"get") {
        return get(moment, arguments);
    }
    if is_word(verb, b"snd") {
        return send(alloc, moment, arguments);
    }
    if is_word(verb, b"rcv") {
        return receive(moment, arguments);
    }
    if is_word(verb, b"stat") {
        return stat(arguments);
    }
    if is_word(verb, b"set") {
        return set(moment, arguments);
    }
    if is_word(verb, b"rm") {
        return remove(arguments);
    }
    if is_word(verb, b"stop") {
        return stop(arguments);
    }
    Err(wrong)
}

/// `get KEY` or `get private`, then any of `create`, `excl`, `mode=OOO`.
fn get(moment: u64, words: &[&[u8]]) -> Result<Command, Unread>
    ensures { IsRead result (option_map Command.Call (get_of moment (texts words.now))) }
{
    let wrong = Unread::at(3, Expected::Key);
    let [word, words @ ..] = words else {
        return Err(wrong);
    };
    let key = key(word).ok_or(wrong)?;
    let options = Options::read(Optional::Get, 4, words)?;
    Ok(Command::Call(Call::Get(GetArguments {
        key,
        create: options.create,
        excl: options.excl,
        mode: options.mode.unwrap_or(DEFAULT_MODE),
        moment,
    })))
}

/// `snd ID TYPE HEX`, then optionally `nowait`.
fn send(alloc: Global, moment: u64, words: &[&[u8]]) -> Result<Command, Unread>
    ensures { IsRead result (option_map Command.Call (send_of moment (texts words.now))) }
{
    let (id, words) = number_at(3, Expected::Id, words)?;
    let (mtype, words) = type_at(4, words)?;
    let wrong = Unread::at(5, Expected::Hex);
    let [word, words @ ..] = words else {
        return Err(wrong);
    };
    let body = match body(alloc, word) {
        Ok(body) => body,
        Err(Refusal::Wrong) => return Err(wrong),
        Err(Refusal::NoMemory) => return Err(Unread::NoMemory),
    };
    let options = Options::read(Optional::Send, 6, words)?;
    Ok(Command::Call(Call::Send(SendArguments {
        id,
        mtype,
        body,
        nowait: options.nowait,
        moment,
    })))
}

/// `rcv ID SIZE TYPE`, then any of `nowait`, `noerror`.
fn receive(moment: u64, words: &[&[u8]]) -> Result<Command, Unread>
    ensures { IsRead result (option_map Command.Call (receive_of moment (texts words.now))) }
{
    let (id, words) = number_at(3, Expected::Id, words)?;
    let (size, words) = number_at(4, Expected::Size, words)?;
    let (mtype, words) = type_at(5, words)?;
    let options = Options::read(Optional::Receive, 6, words)?;
    Ok(Command::Call(Call::Receive(ReceiveArguments {
        id,
        size,
        mtype,
        nowait: options.nowait,
        noerror: options.noerror,
        moment,
    })))
}

/// `stat ID`.
fn stat(words: &[&[u8]]) -> Result<Command, Unread>
    ensures { IsRead result (option_map Command.Call (stat_of (texts words.now))) }
{
    let (id, words) = number_at(3, Expected::Id, words)?;
    match words {
        [] => Ok(Command::Call(Call::Stat { id })),
        _ => Err(Unread::at(4, Expected::End)),
    }
}

/// `set ID QBYTES`, then any of `uid=N`, `gid=N`, `mode=OOO`.
fn set(moment: u64, words: &[&[u8]]) -> Result<Command, Unread>
    ensures { IsRead result (option_map Command.Call (set_of moment (texts words.now))) }
{
    let (id, words) = number_at(3, Expected::Id, words)?;
    let (qbytes, words) = number_at(4, Expected::Qbytes, words)?;
    let options = Options::read(Optional::Set, 5, words)?;
    Ok(Command::Call(Call::Set(SetArguments {
        id,
        qbytes,
        uid: options.uid,
        gid: options.gid,
        mode: options.mode,
        moment,
    })))
}

/// `rm ID`.
fn remove(words: &[&[u8]]) -> Result<Command, Unread>
    ensures { IsRead result (option_map Command.Call (remove_of (texts words.now))) }
{
    let (id, words) = number_at(3, Expected::Id, words)?;
    match words {
        [] => Ok(Command::Call(Call::Remove { id })),
        _ => Err(Unread::at(4, Expected::End)),
    }
}

/// `stop`.
fn stop(words: &[&[u8]]) -> Result<Command, Unread>
    ensures { IsRead result (alone Command.Stop (texts words.now)) }
{
    match words {
        [] => Ok(Command::Stop),
        _ => Err(Unread::at(3, Expected::End)),
    }
}

/// The number at the word of this number, and the words that follow it.
pub(crate) fn number_at<'w, 'a>(
    place: usize,
    could: Expected,
    words: &'w [&'a [u8]],
) -> Result<(u32, &'w [&'a [u8]]), Unread>
    ensures { Takes result (next number_of (texts words.now)) }
{
    let wrong = Unread::at(place, could);
    let [word, rest @ ..] = words else {
        return Err(wrong);
    };
    let value = number(word).ok_or(wrong)?;
    Ok((value, rest))
}

/// The type of a message at the word of this number, and the words that follow it.
fn type_at<'w, 'a>(place: usize, words: &'w [&'a [u8]]) -> Result<(i64, &'w [&'a [u8]]), Unread>
    ensures { Takes result (next signed_of (texts words.now)) }
{
    let wrong = Unread::at(place, Expected::Type);
    let [word, rest @ ..] = words else {
        return Err(wrong);
    };
    let value = signed(word).ok_or(wrong)?;
    Ok((value, rest))
}
