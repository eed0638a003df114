//! A seat of a service, and the lines of a script that are made at it.

ghost use Rattle.std.specs.Prelude.{◌≡◌, ◌<◌, ◌≤◌, ℕ, ◌++◌, [], Some, length, map, slice_index_or, true, vec_capacity};
ghost use Rattle.replays.specs.Journal.{entry_at};
ghost use Rattle.workers.specs.Views.{nobody};
ghost use Rattle.service_runs.specs.Desks.{ArePaired, DeskView, IsFresh, IsMadeOf, MayLackRoom, lines_at};
ghost use Rattle.service_runs.specs.Lines.{Fits, is_failure, is_session_full};
ghost use Rattle.workers.specs.Told.{IsSameSeat, SeesFull};

use crate::seat_lines::SeatLines;
use crate::waiter::{Shared, Waiter};
use msgq_cli::{Command, Line, Reply};
use numbers::faults;
use page_device::PageDevice;
use std::marker::Model;
use std::sync::Mutex;
use workers::{Base, Room, Seat, Stopper};

/// A seat of a service, with its lines and their replies. Contracts see what the seat knows, and
/// the lines.
#[derive(Drop)]
pub struct Desk<'s, N: Room + Base> {
    pub(crate) seat: Seat<N>,
    pub(crate) lines: SeatLines<'s>,
}

impl<'s, N: Room + Base> Model for Desk<'s, N> {
    ghost use Rattle.std.specs.Prelude.{◌≡◌};
    ghost use Rattle.service_runs.specs.Desks.{DeskView};

    ghost Value = { DeskView };

    ghost view = { λ d. record { sitter = d.seat; lines = d.lines } };

    ghost invariant = { λ d. d.seat.seat ≡ d.lines.seat };
}

impl<'s, N: Room + Base> Desk<'s, N> {
    /// The number of its seat.
    pub fn number(&self) -> u8
        ensures { result ≡ self.now.lines.seat }
    {
        self.lines.seat()
    }

    /// How many lines its script has.
    pub fn script_lines(&self) -> usize {
        self.lines.script().len()
    }

    /// Makes its lines one after the other. A script with a `stop` comes with a stopper.
    pub fn make<C: Waiter, D: PageDevice + Drop>(
        &mut self,
        waiter: &C,
        service: &Shared<D, N>,
        stopper: Option<&Mutex<Stopper<N>>>,
    )
        requires fresh { IsFresh self.old }
        ensures made { IsMadeOf N.origin self.old self.new }
    {
        for line in self.lines.script() {
            if line.seat == self.lines.seat() {
                let reply = reply(waiter, service, stopper, &mut self.seat, line);
                self.lines.push(reply);
            }
        }
    }

    /// Makes none of its lines: each is replied 60.
    pub fn refuse(&mut self)
        requires fresh { IsFresh self.old }
        ensures made { IsMadeOf N.origin self.old self.new }
    {
        for line in self.lines.script() {
            if line.seat == self.lines.seat() {
                self.lines.push(Reply::Failed(faults::NO_MEMORY));
            }
        }
    }

    /// What the line behind so many of its lines was replied.
    pub(crate) fn reply(&self, place: usize) -> &Reply
        requires { place < length self.now.lines.replies }
        ensures { result.now ≡ slice_index_or self.now.lines.replies place result.now }
    {
        &self.lines.replies()[place]
    }
}

/// Each seat with its lines, at desks for which there is room.
pub fn at_desks<'s, N: Room + Base>(
    seats: Vec<Seat<N>>,
    lines: Vec<SeatLines<'s>>,
    room: Vec<Desk<'s, N>>,
) -> Vec<Desk<'s, N>>
    requires many { length lines.items ≡ length seats.items }
    requires same { (place : ℕ) → place < length seats.items →
        (slice_index_or seats.items place nobody).seat ≡ (lines_at lines.items place).seat }
    requires empty { room.items ≡ [] }
    requires room { length seats.items ≤ vec_capacity room }
    ensures { ArePaired seats.items lines.entry.items result.items }
{
    let mut desks = room;
    for (seat, lines) in seats.into_iter().zip(lines) {
        desks.push_reserved(Desk { seat, lines });
    }
    desks
}

/// The seats at these desks, for which there is room.
pub fn seats_of<N: Room + Base>(desks: Vec<Desk<'_, N>>, room: Vec<Seat<N>>) -> Vec<Seat<N>>
    requires empty { room.items ≡ [] }
    requires room { length desks.items ≤ vec_capacity room }
    ensures { result.items ≡ map (λ (d : DeskView). d.sitter) desks.entry.items }
{
    let mut seats = room;
    for desk in desks {
        seats.push_reserved(desk.seat);
    }
    seats
}

/// Makes a line at a seat.
fn reply<C: Waiter, D: PageDevice + Drop, N: Room + Base>(
    waiter: &C,
    service: &Shared<D, N>,
    stopper: Option<&Mutex<Stopper<N>>>,
    seat: &mut Seat<N>,
    line: &Line,
) -> Reply
    requires { seat.old.seat ≡ line.now.seat }
    ensures told { seat.new.list ≡ seat.old.list ++ entry_at line.now (Some result) }
    ensures fits { Fits (MayLackRoom N.origin) line.now.command result }
    ensures failed { is_failure result ≡ true → seat.new.failed ≡ true }
    ensures full { is_session_full result ≡ true → SeesFull (length N.origin.callers) seat.new }
    ensures same { IsSameSeat seat.old seat.new }
{
    let call = match &line.command {
        Command::Call(call) => call,
        Command::Stop => {
            if let Some(stopper) = stopper {
                waiter.stop(service, stopper);
            }
            return Reply::Stopped;
        }
    };
    let Ok(copy) = call.try_copy() else {
        return Reply::Failed(faults::NO_MEMORY);
    };
    match waiter.call(service, seat, copy) {
        Ok(answer) => Reply::Answered(answer),
        Err(fault) => Reply::Failed(fault.number()),
    }
}
