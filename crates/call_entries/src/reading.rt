//! Calls that were written down are read.

ghost use Rattle.std.specs.Prelude.{◌≡◌, ◌≤◌, length};
ghost use Rattle.call_entries.specs.Entries.{Reads};
ghost use Rattle.call_entries.specs.Reading.{Cuts, entry_in};

use crate::entry::{CallEntry, moment_of};
use frames::{Incoming, Kind, Operation, Request, Unread, eight_at, read, whole};
use std::alloc::Global;
use std::marker::Model;
use thiserror::Error;

/// Why an entry was not read.
#[derive(Clone, Copy, Debug, PartialEq, Eq, Error)]
pub enum Unreadable {
    /// The bytes begin with no entry.
    #[error("the bytes are no calls")]
    NoEntry,
    /// There is no memory for the body of a call.
    #[error("out of memory")]
    NoMemory,
}

/// Bytes of entries, of which one after another is taken.
#[derive(Drop)]
pub struct CallReader<'a> {
    rest: &'a [u8],
}

impl<'a> Model for CallReader<'a> {
    ghost use Rattle.std.specs.Prelude.{ℕ, List};

    ghost Value = { List ℕ };

    ghost view = { λ r. r.rest.now };
}

impl<'a> CallReader<'a> {
    /// Those of these bytes.
    pub fn new(bytes: &'a [u8]) -> CallReader<'a>
        ensures { result ≡ bytes.now }
    {
        CallReader { rest: bytes }
    }

    /// Takes the next entry; none at the end.
    ///
    /// # Errors
    ///
    /// `NoEntry` exactly where the bytes begin with none.
    pub fn next(&mut self, alloc: Global) -> Result<Option<CallEntry>, Unreadable>
        ensures { Reads result self.old self.new }
    {
        if self.rest.is_empty() {
            return Ok(None);
        }
        let Some(parts) = cut(self.rest) else {
            return Err(Unreadable::NoEntry);
        };
        let incoming = match read(alloc, parts.request, parts.moment) {
            Ok(incoming) => incoming,
            Err(Unread::NoMemory { .. }) => return Err(Unreadable::NoMemory),
            Err(Unread::Broken) => return Err(Unreadable::NoEntry),
            Err(Unread::Wrong { .. }) => return Err(Unreadable::NoEntry),
        };
        let Some(entry) = entry_in(incoming, parts.moment, parts.check) else {
            return Err(Unreadable::NoEntry);
        };
        self.rest = parts.rest;
        Ok(Some(entry))
    }
}

/// The parts of an entry, and what stands behind it.
#[derive(Drop)]
struct Parts<'a> {
    moment: u64,
    request: &'a [u8],
    check: u64,
    rest: &'a [u8],
}

/// The parts of the first entry of these bytes, where they are long enough for it.
fn cut<'a>(bytes: &'a [u8]) -> Option<Parts<'a>>
    ensures { Cuts bytes.now result }
{
    if bytes.len() < 8 {
        return None;
    }
    let (_, behind) = bytes.split_at(8);
    let size = match whole(behind) {
        Ok(Some(size)) => size,
        Ok(None) => return None,
        Err(_) => return None,
    };
    if behind.len() - size < 8 {
        return None;
    }
    let (request, last) = behind.split_at(size);
    let (_, rest) = last.split_at(8);
    Some(Parts {
        moment: eight_at(bytes, 0),
        request,
        check: eight_at(last, 0),
        rest,
    })
}

/// The entry of what was asked for, where it is a call of nobody's at its moment.
fn entry_in(incoming: Incoming, moment: u64, check: u64) -> Option<CallEntry>
    ensures { result ≡ entry_in moment check incoming }
{
    let Incoming {
        connection: 0,
        caller,
        kind: Kind::Request(
            Request {
                number: 0,
                operation: Operation::Call(call),
            },
        ),
    } = incoming
    else {
        return None;
    };
    if moment_of(&call) != moment {
        return None;
    }
    Some(CallEntry {
        caller,
        call,
        check,
    })
}
