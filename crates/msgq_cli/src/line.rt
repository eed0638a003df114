//! The lines of a script, each by itself.

ghost use Rattle.std.specs.Prelude.{◌≡◌, IfOk, max, nat_lt};
ghost use Rattle.std.specs.List.{fold, list_all};
ghost use Rattle.std.specs.Option.{option_copied};
ghost use Rattle.msgq_cli.specs.Lines.{HasSeat, text_of, ids_of, worded, content_of};
ghost use Rattle.msgq_cli.specs.Unread.{IsRead};
ghost use Rattle.schedules.specs.Words.{texts};

use crate::command::{Command, number_at, read_command};
use crate::mistake::{Expected, Mistake, Unread};
use schedules::{is_word, seat, words_into};
use std::alloc::Global;

/// A line with a command.
#[derive(Drop)]
pub struct Line {
    /// Its number in the script, counted from 1 over all lines; the moment of its call.
    pub number: u64,
    /// Whose line it is: 1 to `SEATS`.
    pub seat: u8,
    /// What it asks for.
    pub command: Command,
}

/// A line that says which user and group a seat's caller has.
#[derive(Clone, Copy)]
pub struct SeatIds {
    /// The seat: 1 to `SEATS`.
    pub seat: u8,
    /// Effective user id.
    pub uid: u32,
    /// Effective group id.
    pub gid: u32,
}

/// What a line says.
#[derive(Drop)]
pub(crate) enum Content {
    /// It is empty or a comment.
    Nothing,
    /// `ids SEAT UID GID`.
    Ids(SeatIds),
    /// A seat and its command.
    Line(Line),
}

/// What the line of a number says. The bytes have the end of the line. Its words are put into
/// `words`, in place of what stood there.
pub(crate) fn read_content<'a>(
    alloc: Global,
    number: u64,
    line: &'a [u8],
    words: &mut Vec<&'a [u8]>,
) -> Result<Content, Unread>
    ensures value { IsRead result (content_of number line.now) }
    ensures within { IfOk result HasSeat }
{
    let text = text(line).ok_or(Unread::Wrong(Mistake::ReturnAtEnd))?;
    if !is_ascii(text) {
        return Err(Unread::Wrong(Mistake::NotAscii));
    }
    match text {
        [] | [b'#', ..] => Ok(Content::Nothing),
        _ => {
            words_into(words, text)?;
            worded(alloc, number, words.as_slice())
        }
    }
}

/// A line without its end.
pub(crate) fn text(line: &[u8]) -> Option<&[u8]>
    ensures { option_copied result ≡ text_of line.now }
{
    match line.split_last() {
        Some((b'\n', text)) => Some(text.strip_suffix(b"\r").unwrap_or(text)),
        Some((b'\r', _)) => None,
        _ => Some(line),
    }
}

/// Whether all bytes are below 128. All are looked at, so that sixteen are tested at a time.
fn is_ascii(text: &[u8]) -> bool
    ensures { result ≡ list_all (λ byte. nat_lt byte 128) text.now }
{
    greatest(text) < 128
}

/// The greatest byte, or 0.
fn greatest(text: &[u8]) -> u8
    ensures { result ≡ fold (λ greatest byte. max greatest byte) 0 text.now }
{
    text.iter()
        .fold(0, |greatest: u8, byte| greatest.max(*byte))
}

/// What the words of a line say.
fn worded(alloc: Global, number: u64, words: &[&[u8]]) -> Result<Content, Unread>
    ensures value { IsRead result (worded number (texts words.now)) }
    ensures within { IfOk result HasSeat }
{
    let [first, rest @ ..] = words else {
        return Err(Unread::Wrong(Mistake::Blanks));
    };
    if is_word(first, b"ids") {
        return ids(rest);
    }
    let seat = seat(first).ok_or(Unread::at(1, Expected::SeatOrIds))?;
    let command = read_command(alloc, number, rest)?;
    Ok(Content::Line(Line {
        number,
        seat,
        command,
    }))
}

/// `SEAT UID GID` after `ids`.
fn ids(words: &[&[u8]]) -> Result<Content, Unread>
    ensures value { IsRead result (ids_of (texts words.now)) }
    ensures within { IfOk result HasSeat }
{
    let wrong = Unread::at(2, Expected::Seat);
    let [word, words @ ..] = words else {
        return Err(wrong);
    };
    let seat = seat(word).ok_or(wrong)?;
    let (uid, words) = number_at(3, Expected::Uid, words)?;
    let (gid, words) = number_at(4, Expected::Gid, words)?;
    match words {
        [] => Ok(Content::Ids(SeatIds { seat, uid, gid })),
        _ => Err(Unread::at(5, Expected::End)),
    }
}
