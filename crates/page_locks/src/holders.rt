//! Who holds one name.

ghost use Rattle.std.specs.Prelude.{◌≡◌, ◌≢◌, ◌<◌, ◌≤◌, ◌-◌, ℕ, Some, None, IfSome, IfNone, false, true};
ghost use Rattle.std.specs.Int.{bit_at};
ghost use Rattle.page_locks.specs.Holding.{kind_at, is_nobody, ChangesSeat};
ghost use Rattle.page_locks.specs.Locks.{is_against};

use crate::lock::LockKind;

/// The seats that hold a name, each in one kind.
#[derive(Clone, Copy)]
pub struct Holders {
    /// Those that read: seat s at bit s - 1.
    pub readers: u64,
    /// The selective one, or 0.
    pub selective: u8,
    /// The exclusive one, or 0.
    pub exclusive: u8,
}

impl Holders {
    /// No seat holds the name.
    pub const NOBODY: Holders = Holders {
        readers: 0,
        selective: 0,
        exclusive: 0,
    };

    /// Whether no seat holds the name.
    pub fn is_nobody(self) -> bool
        ensures { result ≡ is_nobody self }
    {
        self.readers == 0 && self.selective == 0 && self.exclusive == 0
    }

    /// Another seat, which holds the name in a kind that does not go with this one.
    pub fn opponent(self, seat: u8, kind: LockKind) -> Option<u8>
        requires some { 1 ≤ seat }
        requires few { seat ≤ 64 }
        ensures none { IfNone result ((other : ℕ) → other ≢ seat →
            is_against kind (kind_at self other) ≡ false) }
        ensures another { IfSome result (λ other. other ≢ seat) }
        ensures against { IfSome result (λ other. is_against kind (kind_at self other) ≡ true) }
    {
        if self.exclusive != 0 && self.exclusive != seat {
            return Some(self.exclusive);
        }
        let is_read = matches!(kind, LockKind::Read);
        if !is_read && self.selective != 0 && self.selective != seat {
            return Some(self.selective);
        }
        if matches!(kind, LockKind::Exclusive) {
            return self.other_reader(seat);
        }
        None
    }

    /// The holders once the seat, which did not hold the name, holds it in this kind.
    pub fn with(self, seat: u8, kind: LockKind) -> Holders
        requires some { 1 ≤ seat }
        requires few { seat ≤ 64 }
        requires fresh { kind_at self seat ≡ None }
        requires free { (other : ℕ) → other ≢ seat → is_against kind (kind_at self other) ≡ false }
        ensures { ChangesSeat seat (Some kind) self result }
    {
        match kind {
            LockKind::Read => Holders {
                readers: self.readers | 1 << (seat - 1),
                ..self
            },
            LockKind::Selective => Holders {
                selective: seat,
                ..self
            },
            LockKind::Exclusive => Holders {
                exclusive: seat,
                ..self
            },
        }
    }

    /// The holders but for the seat.
    pub fn without(self, seat: u8) -> Holders
        requires some { 1 ≤ seat }
        requires few { seat ≤ 64 }
        ensures { ChangesSeat seat None self result }
    {
        Holders {
            readers: self.readers & !(1 << (seat - 1)),
            selective: but_for(self.selective, seat),
            exclusive: but_for(self.exclusive, seat),
        }
    }

    /// The first of the readers but for the seat.
    fn other_reader(self, seat: u8) -> Option<u8>
        requires some { 1 ≤ seat }
        requires few { seat ≤ 64 }
        ensures none { IfNone result ((place : ℕ) → place ≢ seat - 1 →
            bit_at self.readers place ≡ 0) }
        ensures some { IfSome result (λ other. 1 ≤ other) }
        ensures another { IfSome result (λ other. other ≢ seat) }
        ensures reads { IfSome result (λ other. bit_at self.readers (other - 1) ≡ 1) }
    {
        let others = self.readers & !(1 << (seat - 1));
        if others == 0 {
            return None;
        }
        Some(others.trailing_zeros() as u8 + 1)
    }
}

/// The holder, unless it is the seat.
fn but_for(holder: u8, seat: u8) -> u8
    ensures own { holder ≡ seat → result ≡ 0 }
    ensures others { holder ≢ seat → result ≡ holder }
{
    if holder == seat { 0 } else { holder }
}
