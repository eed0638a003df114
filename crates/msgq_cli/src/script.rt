//! Scripts.

ghost use Rattle.std.specs.Prelude.{◌≡◌, ◌<◌, ◌≤◌, ◌∷◌, length, take, drop, OnOk, IsErrOf, None, Some};
ghost use Rattle.std.specs.List.{list_any, find};
ghost use Rattle.std.specs.Option.{option_copied};
ghost use Rattle.msgq_cli.specs.Lines.{lines_of};
ghost use Rattle.msgq_cli.specs.Scripts.{empty_script, with_line, script_of, Reads, IsSound};
ghost use Rattle.msgq_cli.specs.declared.mistake.Mistake.{Mistake};
ghost use Rattle.msgq_cli.specs.Scripts.{caller_of, is_of_seat, greatest_seat};

use crate::line::{Content, Line, SeatIds, read_content};
use crate::mistake::{Mistake, Unread};
use memchr::memchr;
use queue_model::Caller;
use std::alloc::Global;
use std::marker::Model;

/// Why a script is not read.
#[derive(Clone, Copy)]
pub enum ScriptError {
    /// The grammar does not have this line, and has all lines before it. Lines count from 1.
    WrongLine {
        /// Its number.
        line: u64,
        /// What is wrong with it.
        mistake: Mistake,
    },
    /// A growth was refused (fault 60).
    NoMemory,
}

/// What a script says, which contracts see as its `ids` lines and its lines with commands.
#[derive(Drop)]
pub struct Script {
    ids: Vec<SeatIds>,
    lines: Vec<Line>,
}

impl Model for Script {
    ghost use Rattle.msgq_cli.specs.Scripts.{Parts, IsSound};

    ghost Value = { Parts };

    ghost view = { λ s. record { ids = s.ids.items; lines = s.lines.items } };

    ghost invariant = { λ s. IsSound (record { ids = s.ids.items; lines = s.lines.items }) };
}

/// Reads a script: what the grammar gives, or the first wrong line.
pub fn read_script(alloc: Global, bytes: &[u8]) -> Result<Script, ScriptError>
    ensures { Reads result (script_of bytes.now) }
{
    let mut script = Script::empty(alloc);
    let mut words = Vec::new(alloc);
    let mut number = 0;
    let mut rest = bytes;
    'lines: while !rest.is_empty() {
        let (line, after) = rest.split_at(first_line_len(rest));
        number += 1;
        match script.add(alloc, number, line, &mut words) {
            Ok(()) => {}
            Err(Unread::Wrong(mistake)) => {
                return Err(ScriptError::WrongLine {
                    line: number,
                    mistake,
                });
            }
            Err(Unread::NoMemory) => return Err(ScriptError::NoMemory),
        }
        rest = after;
    }
    Ok(script)
}

/// How many bytes the first line of a text has, with its LF.
fn first_line_len(text: &[u8]) -> usize
    requires { 0 < length text.now }
    ensures some { 0 < result }
    ensures within { result ≤ length text.now }
    ensures first { lines_of text.now ≡ take result text.now ∷ lines_of (drop result text.now) }
{
    match memchr(b'\n', text) {
        Some(end) => end + 1,
        None => text.len(),
    }
}

impl Script {
    /// No lines.
    fn empty(alloc: Global) -> Script
        ensures { result ≡ empty_script }
    {
        Script {
            ids: Vec::new(alloc),
            lines: Vec::new(alloc),
        }
    }

    /// The lines with commands, in the order of the script.
    pub fn lines(&self) -> &[Line]
        ensures { result.now ≡ self.now.lines }
    {
        self.lines.as_slice()
    }

    /// Who sits at a seat: the process of the seat's number, with user 0 and group 0 where no `ids`
    /// line says otherwise.
    pub fn caller(&self, seat: u8) -> Caller
        ensures { result ≡ caller_of seat self.now.ids }
    {
        caller_at(seat, self.ids.as_slice())
    }

    /// The greatest seat that has a command, or 1 where none has one.
    pub fn greatest_seat(&self) -> u8
        ensures { result ≡ greatest_seat self.now.lines }
    {
        greatest_seat(self.lines.as_slice())
    }

    /// All seats are from 1 to `SEATS`.
    pub fn keeps_seats(&self)
        ensures { IsSound self.now }
    {
        let _ = &self.lines;
    }

    /// One line more. Its words are put into `words`, in place of what stood there.
    fn add<'a>(
        &mut self,
        alloc: Global,
        number: u64,
        line: &'a [u8],
        words: &mut Vec<&'a [u8]>,
    ) -> Result<(), Unread>
        ensures ok { OnOk result (with_line number self.old line.now ≡ Some self.new) }
        ensures wrong { (mistake : Mistake) → IsErrOf result (Unread.Wrong mistake) →
            with_line number self.old line.now ≡ None }
    {
        let said = read_content(alloc, number, line, words)?;
        match said {
            Content::Nothing => {}
            Content::Ids(ids) => {
                if !self.lines.is_empty() || has_seat(ids.seat, self.ids.as_slice()) {
                    return Err(Unread::Wrong(Mistake::LateIds));
                }
                self.ids.push(ids)?;
            }
            Content::Line(line) => self.lines.push(line)?,
        }
        Ok(())
    }
}

/// The greatest seat of the lines, or 1.
fn greatest_seat(lines: &[Line]) -> u8
    ensures { result ≡ greatest_seat lines.now }
{
    lines
        .iter()
        .fold(1, |greatest, line| line.seat.max(greatest))
}

/// Whether a seat has its `ids` line.
fn has_seat(seat: u8, ids: &[SeatIds]) -> bool
    ensures { result ≡ list_any (is_of_seat seat) ids.now }
{
    ids.iter().any(|ids| ids.seat == seat)
}

/// Who sits at a seat.
fn caller_at(seat: u8, ids: &[SeatIds]) -> Caller
    ensures { result ≡ caller_of seat ids.now }
{
    match ids_of_seat(seat, ids) {
        Some(ids) => Caller {
            pid: u32::from(seat),
            uid: ids.uid,
            gid: ids.gid,
        },
        None => Caller {
            pid: u32::from(seat),
            uid: 0,
            gid: 0,
        },
    }
}

/// The `ids` line of a seat.
fn ids_of_seat(seat: u8, ids: &[SeatIds]) -> Option<&SeatIds>
    ensures { option_copied result ≡ find (is_of_seat seat) ids.now }
{
    ids.iter().find(|ids| ids.seat == seat)
}
