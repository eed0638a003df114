//! What seats do on a kernel, and what comes of it.

ghost use Rattle.std.specs.Prelude.{◌↔◌, IsTrue};
ghost use Rattle.interleavings.specs.Runs.{AreOfSeats, IsOfSeat};

use interleaving_core::{BeginFault, Step};
use queue_model::Call;

/// What is done on a kernel. Seats count from 1.
#[derive(Drop)]
pub enum Event {
    /// A call begins at a seat.
    Begin(u8, Call),
    /// The call at a seat makes one step.
    Step(u8),
    /// The call at a seat makes steps for as long as it moves.
    Drive(u8),
    /// The system is stopped.
    Stop,
}

impl Event {
    /// Whether its seat is one of so many. A stop has none.
    fn is_of_seats(&self, seats: u8) -> bool
        ensures { IsTrue result ↔ IsOfSeat seats self.now }
    {
        match self {
            Event::Begin(seat, _) | Event::Step(seat) | Event::Drive(seat) => {
                1 <= *seat && *seat <= seats
            }
            Event::Stop => true,
        }
    }
}

/// Whether the seat of each event is one of so many.
pub fn are_of_seats(events: &[Event], seats: u8) -> bool
    ensures { IsTrue result ↔ AreOfSeats seats events.now }
{
    events.iter().all(|event| event.is_of_seats(seats))
}

/// What came of an event.
#[derive(Drop)]
pub enum Outcome {
    /// The call is under way.
    Begun,
    /// The call does not begin, and comes back.
    Refused(Call, BeginFault),
    /// What the seat is told of its step.
    Stepped(Step),
    /// What the seat is told of the last step of its drive.
    Driven(Step),
    /// The system is stopped.
    Stopped,
}
