//! Where each seat is in a script, and what the lines were replied.

ghost use Rattle.std.specs.Prelude.{◌≡◌, ◌+◌, ◌≤◌, drop, length, None, Some, IfOk, true};
ghost use Rattle.std.specs.List.{list_all, position};
ghost use Rattle.replays.specs.Places.{IsSound, begun, is_idle_for_good, is_of, line_from, place_of, replied, start};

use msgq_cli::{Line, Reply};
use std::alloc::{AllocError, Global};
use std::marker::Model;

/// Where a seat is in a script.
#[derive(Clone, Copy, PartialEq, Eq)]
pub struct Place {
    /// The place of its next line, where one is left.
    pub next: Option<usize>,
    /// The place of its line that is under way.
    pub under_way: Option<usize>,
}

/// A number that is no seat's has no lines.
const NOWHERE: Place = Place {
    next: None,
    under_way: None,
};

/// Where each seat is in a script, and what the lines were replied.
#[derive(Drop)]
pub struct Progress<'a> {
    lines: &'a [Line],
    places: Vec<Place>,
    replies: Vec<Option<Reply>>,
}

impl<'a> Model for Progress<'a> {
    ghost use Rattle.replays.specs.Places.{IsSound, ProgressState};

    ghost Value = { ProgressState };

    ghost view = { λ p. record {
      lines = p.lines.now;
      places = p.places.items;
      replies = p.replies.items;
    } };

    ghost invariant = { λ p. IsSound (record {
      lines = p.lines.now;
      places = p.places.items;
      replies = p.replies.items;
    }) };
}

impl<'a> Progress<'a> {
    /// So many seats begin at these lines. All memory is taken here.
    pub fn new(alloc: Global, lines: &'a [Line], seats: u8) -> Result<Progress<'a>, AllocError>
        ensures ok { IfOk result (λ made. made ≡ start lines.now seats) }
        ensures many { IfOk result (λ made. length made.places ≡ seats) }
    {
        let mut places = Vec::with_capacity(alloc, usize::from(seats))?;
        for place in 0..seats {
            places.push(Place {
                next: line_from(lines, place + 1, 0),
                under_way: None,
            })?;
        }
        let mut replies = Vec::with_capacity(alloc, lines.len())?;
        for _ in 0..lines.len() {
            replies.push(None)?;
        }
        Ok(Progress {
            lines,
            places,
            replies,
        })
    }

    /// How many seats there are. They count from 1.
    pub fn seats(&self) -> usize
        ensures { result ≡ length self.now.places }
    {
        self.places.len()
    }

    /// The lines of the script.
    pub fn lines(&self) -> &[Line]
        ensures { result.now ≡ self.now.lines }
    {
        self.lines
    }

    /// What each line was replied.
    pub fn replies(&self) -> &[Option<Reply>]
        ensures { result.now ≡ self.now.replies }
    {
        self.replies.as_slice()
    }

    /// Where a seat is. A number that is no seat's has no lines.
    pub fn place(&self, seat: u8) -> Place
        ensures { result ≡ place_of self.now.places seat }
    {
        if seat == 0 {
            return NOWHERE;
        }
        match self.places.get(usize::from(seat) - 1) {
            Some(place) => *place,
            None => NOWHERE,
        }
    }

    /// The lines of each seat are always in order.
    pub fn keeps_order(&self)
        ensures { IsSound self.now }
    {
        let _ = &self.lines;
    }

    /// Whether no seat has a line that is under way or left.
    pub fn is_at_end(&self) -> bool
        ensures { result ≡ list_all is_idle_for_good self.now.places }
    {
        self.places.iter().all(|place| is_idle_for_good(place))
    }

    /// The next line of a seat is begun.
    pub fn begin(&mut self, seat: u8, line: usize)
        requires idle { (place_of self.old.places seat).under_way ≡ None }
        requires next { (place_of self.old.places seat).next ≡ Some line }
        ensures { self.new ≡ begun seat line self.old }
    {
        let next = line_from(self.lines, seat, line + 1);
        self.places[usize::from(seat) - 1] = Place {
            next,
            under_way: Some(line),
        };
    }

    /// The line of a seat that is under way is replied, and the seat is idle.
    pub fn reply(&mut self, seat: u8, line: usize, reply: Reply)
        requires { (place_of self.old.places seat).under_way ≡ Some line }
        ensures { self.new ≡ replied seat line reply self.old }
    {
        let place = self.place(seat);
        self.places[usize::from(seat) - 1] = Place {
            under_way: None,
            ..place
        };
        self.replies[line] = Some(reply);
    }
}

/// Whether a seat has no line that is under way or left.
fn is_idle_for_good(place: &Place) -> bool
    ensures { result ≡ is_idle_for_good place.now }
{
    place.next.is_none() && place.under_way.is_none()
}

/// The place of a seat's first line at or behind a place.
fn line_from(lines: &[Line], seat: u8, from: usize) -> Option<usize>
    requires { from ≤ length lines.now }
    ensures { result ≡ line_from seat from lines.now }
{
    match first_of(&lines[from..], seat) {
        Some(further) => Some(from + further),
        None => None,
    }
}

/// The place of a seat's first line.
fn first_of(lines: &[Line], seat: u8) -> Option<usize>
    ensures { result ≡ position (is_of seat) lines.now }
{
    lines.iter().position(|line| line.seat == seat)
}
