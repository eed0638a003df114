//! What can't stand in a line of a script where it stands, and what could.

ghost use Rattle.std.specs.Prelude.{◌≡◌};

use std::alloc::{AllocError, AllocFailed};

/// Why a line is none of the grammar.
#[derive(Clone, Copy)]
pub enum Mistake {
    /// At the word of this number, counted from 1, or at the end of a line that has no such word:
    /// this could stand there.
    Word(usize, Expected),
    /// The script ends in a CR.
    ReturnAtEnd,
    /// A byte from 128 on.
    NotAscii,
    /// Blanks alone.
    Blanks,
    /// An `ids` line after a command, or again for its seat.
    LateIds,
}

/// What could stand at a word's place.
#[derive(Clone, Copy)]
pub enum Expected {
    /// A seat or `ids`, the first word of a line.
    SeatOrIds,
    /// The verb of a command, after the seat.
    Command,
    /// The seat of an `ids` line, its user and its group.
    Seat,
    Uid,
    Gid,
    /// `KEY` or `private`.
    Key,
    /// The id of a queue.
    Id,
    /// How many bytes a receive takes at most.
    Size,
    /// How many bytes a queue may hold.
    Qbytes,
    /// The type of a message, or of those that a receive takes.
    Type,
    /// The body of a message.
    Hex,
    /// An option of the call, which no other repeats.
    OptionOf(Optional),
    /// Nothing more.
    End,
}

/// A call that may have options.
#[derive(Clone, Copy)]
pub enum Optional {
    Get,
    Send,
    Receive,
    Set,
}

/// Why a line is not read.
#[derive(Clone, Copy)]
pub(crate) enum Unread {
    /// The grammar does not have it.
    Wrong(Mistake),
    /// A growth was refused.
    NoMemory,
}

impl Unread {
    /// A word that is not what could stand at its place, or is lacking there.
    pub(crate) fn at(number: usize, could: Expected) -> Unread
        ensures { result ≡ Unread.Wrong (Mistake.Word number could) }
    {
        Unread::Wrong(Mistake::Word(number, could))
    }
}

impl From<AllocError> for Unread {
    ghost use Rattle.std.specs.Prelude.{◌≡◌};
    ghost use Rattle.msgq_cli.specs.declared.mistake.Unread.TheVariants.{NoMemory};

    ghost from_gives = { λ _ unread. unread ≡ NoMemory };

    fn from(_: AllocError) -> Unread {
        Unread::NoMemory
    }
}

impl<T: Drop> From<AllocFailed<T>> for Unread {
    ghost use Rattle.std.specs.Prelude.{◌≡◌};
    ghost use Rattle.msgq_cli.specs.declared.mistake.Unread.TheVariants.{NoMemory};

    ghost from_gives = { λ _ unread. unread ≡ NoMemory };

    fn from(_: AllocFailed<T>) -> Unread {
        Unread::NoMemory
    }
}
