//! A table of locks, beside any file.

ghost use Rattle.std.specs.Prelude.{◌↔◌, IsTrue};
ghost use Rattle.page_locks.specs.Table.{IsSeat};

use crate::line::Line;
use crate::told::{kind_name, tell_grant};
use crate::words::{Words, Wrong};
use page_locks::{LockName, LockTable};

/// A seat asks for a lock, turns it into another kind or gives it back, or what it holds is asked.
#[derive(Clone, Copy)]
pub enum LockDeed {
    Ask,
    Turn,
    Give,
    Holds,
    /// How many slots the last one looked at.
    Looked,
}

/// These by their verbs.
pub const LOCK_DEEDS: [(&[u8], LockDeed); 5] = [
    (b"ask", LockDeed::Ask),
    (b"turn", LockDeed::Turn),
    (b"give", LockDeed::Give),
    (b"holds", LockDeed::Holds),
    (b"looked", LockDeed::Looked),
];

/// What a deed is told that the rules of a table do not have.
const NO_LOCK: Wrong = Wrong::Wanted("a seat that may ask for this");

/// Whether the table has this seat.
fn has_seat(table: &LockTable, seat: u8) -> bool
    ensures { IsTrue result ↔ IsSeat table.now seat }
{
    seat >= 1 && seat <= table.seats()
}

/// Does a deed with locks, where the conditions of the table's call hold, and tells what it came to.
pub fn does(
    table: &mut LockTable,
    deed: LockDeed,
    words: &mut Words<'_>,
    line: &mut Line,
) -> Result<(), Wrong> {
    if let LockDeed::Looked = deed {
        line.number(table.looked() as u64);
        return Ok(());
    }
    let seat = words.seat()?;
    let name = words.lock_name()?;
    match deed {
        LockDeed::Ask => ask(table, seat, name, words, line),
        LockDeed::Turn => turn(table, seat, name, words, line),
        _ if !has_seat(table, seat) => Err(NO_LOCK),
        LockDeed::Give => {
            table.release(seat, name);
            Ok(())
        }
        _ => {
            match table.holds(seat, name) {
                Some(kind) => line.word(kind_name(kind)),
                None => line.word("none"),
            }
            Ok(())
        }
    }
}

/// A seat asks for a lock.
fn ask(
    table: &mut LockTable,
    seat: u8,
    name: LockName,
    words: &mut Words<'_>,
    line: &mut Line,
) -> Result<(), Wrong> {
    let kind = words.lock_kind()?;
    if !has_seat(table, seat) {
        return Err(NO_LOCK);
    }
    if table.holds(seat, name).is_some() {
        line.word("held");
        return Ok(());
    }
    if table.is_full(seat) {
        line.word("full");
        return Ok(());
    }
    tell_grant(line, table.try_grant(seat, name, kind));
    Ok(())
}

/// A seat turns a lock that it holds into another kind.
fn turn(
    table: &mut LockTable,
    seat: u8,
    name: LockName,
    words: &mut Words<'_>,
    line: &mut Line,
) -> Result<(), Wrong> {
    let kind = words.lock_kind()?;
    if !has_seat(table, seat) || table.holds(seat, name).is_none() {
        return Err(NO_LOCK);
    }
    tell_grant(line, table.convert(seat, name, kind));
    Ok(())
}
