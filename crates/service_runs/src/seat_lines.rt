//! The lines of one seat of a script.

ghost use Rattle.std.specs.Prelude.{◌≡◌, ◌<◌, ◌∷◌, ◌++◌, [], IfOk, filter, length};
ghost use Rattle.service_runs.specs.Lines.{is_line_of, lines_of};

use msgq_cli::{Line, Reply};
use queue_model::NoMemory;
use std::alloc::Global;
use std::marker::Model;

/// The lines of one seat of a script, and what those that were made were replied. There is room for
/// the replies to all of them.
#[derive(Drop)]
pub struct SeatLines<'s> {
    seat: u8,
    lines: &'s [Line],
    replies: Vec<Reply>,
}

impl<'s> Model for SeatLines<'s> {
    ghost use Rattle.std.specs.Prelude.{vec_capacity};
    ghost use Rattle.service_runs.specs.Lines.{HasRoom, LinesView};

    ghost Value = { LinesView };

    ghost view = { λ s. record { seat = s.seat; lines = s.lines.now; replies = s.replies.items } };

    ghost invariant = { λ s. HasRoom s.seat s.lines.now s.replies.items (vec_capacity s.replies) };
}

impl<'s> SeatLines<'s> {
    /// None of them is made yet.
    pub(crate) fn new(alloc: Global, seat: u8, lines: &'s [Line]) -> Result<SeatLines<'s>, NoMemory>
        ensures seat { IfOk result (λ made. made.seat ≡ seat) }
        ensures lines { IfOk result (λ made. made.lines ≡ lines.now) }
        ensures replies { IfOk result (λ made. made.replies ≡ []) }
    {
        Ok(SeatLines {
            seat,
            lines,
            replies: Vec::with_capacity(alloc, count(seat, lines))?,
        })
    }

    /// Their seat.
    pub(crate) fn seat(&self) -> u8
        ensures { result ≡ self.now.seat }
    {
        self.seat
    }

    /// All lines of the script.
    pub(crate) fn script(&self) -> &'s [Line]
        ensures { result.now ≡ self.now.lines }
    {
        self.lines
    }

    /// What those that were made were replied.
    pub(crate) fn replies(&self) -> &[Reply]
        ensures { result.now ≡ self.now.replies }
    {
        self.replies.as_slice()
    }

    /// The next of them is replied.
    pub(crate) fn push(&mut self, reply: Reply)
        requires { length self.old.replies < length (lines_of self.old.seat self.old.lines) }
        ensures { self.new ≡ record self.old { replies = self.old.replies ++ reply ∷ [] } }
    {
        self.replies.push_reserved(reply);
    }
}

/// How many lines are of a seat.
fn count(seat: u8, lines: &[Line]) -> usize
    ensures { result ≡ length (filter (is_line_of seat) lines.now) }
{
    lines.iter().filter(|line| line.seat == seat).count()
}
